// The order of the objects in the printed list with layer edits, document 02's Req 08 and Req 12: which edit decides
// where an object stands, the two parts of the list, and that this is what comes of making the moves one by one. It has
// no code.
#![tactic(auto)]
