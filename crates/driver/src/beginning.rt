//! The tables of a root at its birth.

ghost use Rattle.std.specs.Prelude.{◌≡◌, [], IfOk};
ghost use Rattle.driver.specs.working.Tables.{AreSound, history_in};

use crate::process_status::ProcessStatus;
use crate::recording::note;
use crate::tables::Tables;
use indexmap::IndexMap;
use report_line::Name;
use stamp::Stamp;
use std::alloc::{AllocError, Global};

// The tables of a root at its birth, in this epoch.
pub(crate) fn begun(alloc: Global, root: Name, epoch: u32) -> Result<Tables, AllocError>
    ensures { IfOk result (λ t. (t.root ≡ root) × (t.epoch ≡ epoch) × (history_in t ≡ []) × AreSound t) }
{
    let _name = root.as_bytes();
    let mut known = IndexMap::new(alloc);
    known.reserve(1)?;
    let now = ProcessStatus::Born {
        stamp: Stamp::first(alloc),
    };
    note(&mut known, root.copy(), now);
    Ok(Tables {
        root,
        epoch,
        steps: Vec::new(alloc),
        known,
        messages: IndexMap::new(alloc),
    })
}
