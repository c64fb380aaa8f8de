//! Reads the words of the command line.
#![tactic(auto)]

mod command;
pub mod examples;
pub mod job;
mod parsing;
mod schedule;

pub use command::{Command, read_words};
pub use job::Job;
pub use schedule::Schedule;
