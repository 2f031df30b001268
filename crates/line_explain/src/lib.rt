//! Why a line is outside the grammar: which word of it is the first that no call has there, and what is wanted in its place.
//!
//! Which word that is follows from the grammar itself: a call begins with the words in front of it, and none with these and it. A line that
//! is a call is told to be that.
#![tactic(auto)]

mod explained;
mod explaining;
mod fault;
mod fields;
mod fitting;
mod kind;
mod number;
mod stream;
mod text;
mod wanted;

pub use explained::Explained;
pub use explaining::explain;
pub use fault::{TreeFault, Why, WrongWord};
pub use stream::Explanations;
pub use wanted::Wanted;
