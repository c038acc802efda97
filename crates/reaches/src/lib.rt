// What the walk's promise means: laws of its definition, with no code of their own.

#![tactic(auto)]
