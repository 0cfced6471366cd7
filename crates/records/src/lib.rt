// What a capture writes: the stamp, the record and the alarm record, into a lent part.
#![tactic(auto)]

pub mod alarm;
pub mod event;
pub mod flags;
pub mod moment;
pub mod record;
pub mod stamp;
