// Mathematics alone, about the definitions of the crates below: nothing that the list has shown is lost when more
// edits arrive.
#![tactic(auto)]
