// The live table's rows, the groups of a definition and the size of its record.
#![tactic(auto)]

pub mod groups;
pub mod table;

pub use groups::Group;
pub use table::{Kind, Row, Run};
