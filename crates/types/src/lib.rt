// The conversions, the order's number and the order's states of broker/src/types.rs.
#![tactic(auto)]

pub mod fixed;
pub mod order;
