// What the contracts of the public functions promise together. No function stands here: what is said is in specs/, and its
// proofs are in proofs/.
//
// Demand 3 of what is shipped: whoever calls `lower` once and then `tick`, as often as one likes, is answered 1 exactly where a
// match ends (proofs/TheStandardIsMet.antt). One outcome: of the same call each contract allows one result, and one content of
// each slice that is lent to be written (proofs/OneOutcome.antt, and a file for each group of crates beside it).
//
// Example: for `a ##1 b` and atoms 1,0 then 0,1 then 0,0 the answers are 0, 1, 0, whatever the buffers hold past the registers.
#![tactic(auto)]
