// The wire layer of Modbus RTU: the frame check, 16-bit words, high byte first, and the shapes of replies.
#![tactic(auto)]

pub mod crc;
mod crc_steps;
pub mod frame;
pub mod word;
