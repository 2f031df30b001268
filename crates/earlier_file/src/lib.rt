//! Record files as they were: of the bytes of one the first records alone, and what the bytes tell of the file.
//!
//! It only reads: the bytes are a slice, and what it makes is a copy.
#![tactic(auto)]

mod cutting;
mod fault;
mod found;
mod walking;

pub use cutting::first_records;
pub use fault::{EarlierFault, FileFault};
pub use found::{FileFacts, facts};
