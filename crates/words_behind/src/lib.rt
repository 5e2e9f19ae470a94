// No code: proves that the machine neither reads nor writes words from slots times W on (specs/Behind.antt).
#![tactic(auto)]
