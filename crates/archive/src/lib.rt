// The archive: where its files lie, and how a scan's records are captured into them.
#![tactic(auto)]

pub mod alarms;
pub mod booleans;
pub mod captures;
pub mod layout;
pub mod ring;
pub mod sight;
