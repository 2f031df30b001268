//! The checker of certificates: it looks at the accepted reports and the certificate alone.
#![tactic(auto)]

mod answer;
mod checking;
mod entries;
mod falling;
mod links;
mod surviving;

pub use answer::{Cause, Verdict};
pub use checking::check;
