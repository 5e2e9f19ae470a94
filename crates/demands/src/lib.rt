// No code: proves what the customer asks of every state that calls reach (proofs/). What a reader must believe for it is in specs/ and in
// the crate ledger.
#![tactic(auto)]
