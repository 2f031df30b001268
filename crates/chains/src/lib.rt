//! The accepted reports, and what they say of processes.
#![tactic(auto)]

mod admission;
mod chains;
mod copies;
mod elements;
mod failed;
mod fitting;
mod keeping;
mod laws;
mod places;
mod position;
mod prepared;
mod process;
mod refusal;
mod reports;
mod settling;
mod state;

pub use chains::Chains;
pub use elements::{Element, Elements};
pub use failed::{Failed, FailedFault, first_unknown, which_are_named};
pub use keeping::KeepFault;
pub use laws::{
    folded_lists_are_lawful, makers_make_the_elements, reachable_lists_are_folded,
    replies_keep_lists_folded,
};
pub use places::{Line, Places};
pub use position::{Place, Position};
pub use prepared::{Prepared, Ready};
pub use refusal::{Admitted, No};
pub use state::State;
