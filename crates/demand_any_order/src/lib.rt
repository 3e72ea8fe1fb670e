// Mathematics alone, about the definitions of the crates below: the order in which edits arrive does not matter, as
// long as each arrives after those that its author had seen.
#![tactic(auto)]
