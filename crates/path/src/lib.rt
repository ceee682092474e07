// SCION paths as bytes: reading, views, alert flags.
#![tactic(auto)]

pub mod dataplane;
pub mod standard;
