//! A text is read in two steps:
//!
//! - `into_entries`, first: one pass makes the entries. It refuses each text that has a fault, and says no more of it. It refuses a
//!   text also where memory was wanting.
//! - `first_fault`, only for a text that was refused: it is read again, byte by byte, for its fault, and of several for the first in the
//!   order of `EventsFault`, wherever in the text each stands. No tree is kept. A text without a fault was refused for want of memory.

pub mod first_fault;
pub mod into_entries;
