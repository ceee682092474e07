// Theorems alone: document 01's starred inputs, in one table. specs/Table.antt has the rows, proofs/Starred.antt the theorem.
#![tactic(auto)]
