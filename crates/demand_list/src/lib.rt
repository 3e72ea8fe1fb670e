// Mathematics alone, about the definitions of the crates below: what the whole program promises of the printed list,
// and the worked cases.
#![tactic(auto)]
