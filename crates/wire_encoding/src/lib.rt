// Numbers on the wire: big-endian numbers read and written, bytes copied; numbers of fewer bits than their type has, and single bits.
#![tactic(auto)]

pub mod bounded;
pub mod flags;
pub mod number;
pub mod read;
pub mod write;
