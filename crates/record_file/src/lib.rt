//! A file of lines over a disk that may crash.
//!
//! Each line stands behind a gate of its own: it is written and synced behind a closed gate, and only then is the gate opened. So at
//! every moment a crash leaves the lines that were there, or those and the one under way.
#![tactic(auto)]

mod appended;
mod durable;
mod fault;
mod filling;
mod finishing;
mod kinds;
mod pieces;
mod reach;
mod reading;
mod store;

pub use appended::Appended;
pub use fault::OpenFault;
pub use kinds::files_are_of_one_kind;
pub use reach::RecordReach;
pub use reading::split_record;
pub use store::Store;
