// Theorems alone: packets that are read alike, and which packets are accepted. specs/ states them.
#![tactic(auto)]
