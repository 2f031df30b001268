//! The state of a process.

use id_tree::Id;

/// What is kept of a process.
#[derive(Drop)]
pub struct State<'a> {
    /// How many reports with a number are accepted of it.
    pub reports: u32,
    /// How many elements it has.
    pub elements: u32,
    /// Its registered id; none once it retired.
    pub id: Option<&'a Id>,
}
