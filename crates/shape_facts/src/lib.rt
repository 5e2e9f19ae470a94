// No code: proves what a good shape gives to the functions that the calls are made of (proofs/Facts.antt).
#![tactic(auto)]
