//! Clients: lines in, replies out.
//!
//! A session reads some bytes, answers each line that they complete, hands the replies on, and only then reads on; or it hands on each
//! reply before the next line's turn, or before an ending line. One client is served over a desk, or many over a coordinator by several threads.
//! Or a session goes in steps, which do not wait for its client, over one coordinator after the other.
#![tactic(auto)]

mod flush_policy;
mod guest;
mod kind;
mod lasting;
mod laws;
mod numbered;
mod over_coordinator;
mod over_desk;
mod reply_line;
mod rest;
mod server;
mod serving;
mod session;
mod stage;
mod threads;
mod turns;
mod unanswered;

pub use flush_policy::FlushPolicy;
pub use guest::{Answered, Guest, Seat};
pub use kind::{SessionEnd, SessionEndKind};
pub use lasting::{LastingSession, exchanges_of_passes};
pub use laws::{
    a_question_has_one_text, each_line_is_right_for_the_current_history,
    each_line_is_right_over_what_was_answered, exchanges_keep_lists,
    exchanges_tell_what_is_accepted, no_line_is_below_garbage_over_files, same_lines_have_one_text,
    served_without_a_device,
};
pub use over_coordinator::serve_link;
pub use over_desk::{Unwatched, Watch, run, run_watched};
pub use rest::Rest;
pub use threads::{Served, workers};
