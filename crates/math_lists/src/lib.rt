// The ground that every crate stands on: tests, sums and choices over the numbers below a bound, sorted lists of
// numbers, and the small laws of Booleans and lists that the kit lacks. It speaks of no edit and has no code.
#![tactic(auto)]
