// No code: proves that calls leave the bytes of a live span alone (proofs/). What a reader must believe for it is in specs/ and in the
// crates filling and ledger.
#![tactic(auto)]
