// Why bytes or a call are refused. Document 01 numbers the refusals; `number` and `value` hand its numbers out.
#![tactic(auto)]

pub mod packet_error;
pub mod path_error;
