//! What a record file holds: a table for people, a line for each of its records, and one object of JSON for programs.
//!
//! It only reads: the chains that were made of the records, what the bytes tell of the file, and the records as they stand there.
#![tactic(auto)]

mod columns;
mod depth;
mod gathering;
mod json;
mod laws;
mod lines;
mod pushing;
mod showing;
mod shown;
mod table;

pub use gathering::{shown_file, shown_processes};
pub use laws::names_need_no_escapes;
pub use lines::to_lines;
pub use showing::{to_json, to_table};
pub use shown::{ShownFile, ShownProcess, ShownState};
