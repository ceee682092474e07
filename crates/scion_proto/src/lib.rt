// The calls for C, in the names of include/scion_proto.h.
#![tactic(auto)]

pub mod packets;
pub mod paths;
