// The documents' cases (document 01's "Positions to check", and the wishes'): they stand as one table in specs/Cases.antt, and proofs/Table.antt proves
// them together.
// There is no code here: the table is over the definitions that the calls' contracts cite.
#![tactic(auto)]
