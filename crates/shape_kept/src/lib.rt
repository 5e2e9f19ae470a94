// No code: proves what a call leaves of a state that is not BadShape (specs/Closed.antt, proofs/Closed.antt).
#![tactic(auto)]
