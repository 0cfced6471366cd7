// The gateway: the calls of the plain machine. Firmware links them by `gateway_c`.
#![tactic(auto)]

pub mod calls;
pub mod files;
mod live;
pub mod poll;
pub mod scan;
