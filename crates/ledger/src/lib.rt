// No code: defines the ledger of live spans and what a block's spans paint on its two maps (specs/), and proves that every state that
// calls reach agrees with it (proofs/).
#![tactic(auto)]
