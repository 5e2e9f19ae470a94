// No code: defines the machine of document 01 (specs/), and proves laws of it (proofs/).
#![tactic(auto)]
