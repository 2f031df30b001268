//! What accepted reports say of every lawful history that agrees with them: the law, the headline, and both after any number of
//! settlements.
//!
//! These are laws of definitions, and do nothing. `law` speaks of one accepted list, `settled` of what a settlement keeps of it.
#![tactic(auto)]

mod law;
mod settled;

pub use law::{
    closed_is_consistent, garbage_line_never_falls, knowledge_is_the_past, places_have_events,
    reports_of_steps_agree, the_premise_is_possible,
};
pub use settled::{
    a_run_is_a_log, each_returns_to_its_position, headline_after_settlements,
    no_line_is_below_garbage, safe_cuts_stay, settled_agrees, settled_elements, settled_is_folded,
    settled_lists_written_out, two_settlements_written_out,
};
