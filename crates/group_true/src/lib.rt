// Mathematics alone: the groups of an object by their definition, over the edits held, and what tells its versions
// apart.
#![tactic(auto)]
