// No code: states the starred edge figures of document 01 as one table, with one claim about all of its rows (specs/Edge.antt).
#![tactic(auto)]
