//! Laws of lawful histories: what the values of an event say of its past, and what a settlement keeps of a history.
//!
//! These are laws of definitions, and do nothing. `order` speaks of one history, `kept` of a history in which processes return to a line.
#![tactic(auto)]

mod kept;
mod order;

pub use kept::{
    current_is_lawful, epochs_tell_returns, events_and_reports_are_kept, kept_is_lawful,
    open_cut_is_refused, position_is_newest,
};
pub use order::{
    beyond_is_later_in_past, every_step_is_possible, joining_first_is_not_lawful,
    look_ups_are_events, order_of_events, rules_are_the_law,
};
