// Mathematics alone, and no edit in it: the maximal conflict-free sets over any symmetric, irreflexive relation, the
// step that makes them one element at a time, how many there are, and that the numbering of the elements does not
// matter. It is document 01, 'Conflict, groups, identifiers', with the word 'Set' taken for 'element'.
#![tactic(auto)]
