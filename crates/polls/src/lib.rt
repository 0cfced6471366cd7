// The answering end: what a request asks for, and the reply to a frame, built where it is sent from.
#![tactic(auto)]

pub mod poll;
pub mod reply;
pub mod request;
pub mod view;
