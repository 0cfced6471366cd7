// The reading end: decodes a reply frame for site software. `reader_c` exports its calls for C, which `answers` tells of
// their results.
#![tactic(auto)]

pub mod answers;
pub mod frame;
pub mod stretch;
pub mod value;

pub use frame::Reply;
