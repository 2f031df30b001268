//! A text is read in two steps:
//!
//! - `into_marks`, first: one pass makes the marks. It refuses each text that has a fault, and says little of it.
//! - `first_fault`, only for a text that was refused: it is read again for the first fault in the order of `IdFault`. No marks are kept.

pub mod first_fault;
pub mod into_marks;
