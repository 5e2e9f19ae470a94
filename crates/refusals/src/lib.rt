// No code: proves that a call is refused exactly when document 01 says, by its numbers (machine/specs/When.antt).
#![tactic(auto)]
