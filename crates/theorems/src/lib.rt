// Theorems, and no code: demand 1 (specs/Demand1, specs/Lone), demand 3 (specs/Reached,
// specs/Demand3), what definitions that follow a loop come to (specs/Fitting), whole records
// (specs/WholeRecords), and the records of a map's edges (specs/Listed).
#![tactic(auto)]
