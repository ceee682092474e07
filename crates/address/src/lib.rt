// SCION addresses as values: networks, services, hosts. No text forms.
#![tactic(auto)]

pub mod host;
pub mod ia;
pub mod scion_address;
pub mod service;
