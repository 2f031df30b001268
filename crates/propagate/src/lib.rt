//! Rollback propagation: the greatest stamp-consistent cut, why no process could stay further on, and the settlement that returns
//! all processes to it.
#![tactic(auto)]

mod arena;
mod cut;
mod falls;
mod places;
mod rounds;
mod settlement;

pub use cut::{
    Cut, certificate, certificate_by, certified_lines_are_the_greatest, greatest_cut,
    greatest_cut_from, greatest_line, the_rounds_choose_once,
};
pub use settlement::{settle, settle_named, settlements_have_one_outcome};
