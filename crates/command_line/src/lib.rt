//! The words of the command line: what the program `recline` is asked to do.
#![tactic(auto)]

mod args;

pub use args::{Command, Wanted, read_args};
