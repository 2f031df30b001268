//! The text that a question for a line is answered with, and that the check of its certificate says yes.
#![tactic(auto)]

mod answer;
mod checked;

pub use answer::answer_for;
pub use checked::check_of_certificate;
