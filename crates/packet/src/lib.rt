// Packets as bytes: the split into headers, path and payload.
#![tactic(auto)]

pub mod raw;
