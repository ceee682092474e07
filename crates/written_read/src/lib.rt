// Theorems alone: reading what was written, and writing what was read. specs/WrittenRead.antt has the statements.
#![tactic(auto)]
