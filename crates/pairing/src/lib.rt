// The definitions of the pair rule stand in specs/.

#![tactic(auto)]
