// The gateway's state, and what makes it Foreign: what every call looks at first.
#![tactic(auto)]

pub mod check;
pub mod firmware;
pub mod parts;
pub mod validity;
