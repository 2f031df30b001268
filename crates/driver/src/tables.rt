//! What a world keeps.

use crate::process_status::ProcessStatus;
use indexmap::IndexMap;
use report_line::{Name, Step as Taken};

/// The root, how many settlements there were, the steps, the oldest first, and what they say of each name: how a process
/// stands, and which step sent a message. Steps are named by their places.
pub(crate) struct Tables {
    pub(crate) root: Name,
    pub(crate) epoch: u32,
    pub(crate) steps: Vec<Taken>,
    pub(crate) known: IndexMap<Name, ProcessStatus>,
    pub(crate) messages: IndexMap<Name, usize>,
}

impl Drop for Tables {
    fn drop(self) {
        let Tables {
            root: _,
            epoch: _,
            steps: _,
            known: _,
            messages: _,
        } = self;
    }
}

/// A process beside the acting one that a step changes.
#[derive(Drop)]
pub(crate) struct Other {
    pub(crate) name: Name,
    pub(crate) known: ProcessStatus,
}

/// A step that is made once more, how many reports its process has then, and another process that it changes.
#[derive(Drop)]
pub(crate) struct Remade {
    pub(crate) step: Taken,
    pub(crate) reports: u32,
    pub(crate) other: Option<Other>,
}
