//! The depth and the size of ids.

ghost use Rattle.std.specs.Prelude.{◌≡◌, ◌≤◌, option_copied};
ghost use Rattle.id_tree.specs.NormalForm.{depth, depth_limit};
ghost use Rattle.id_tree.specs.Size.{size};
ghost use Rattle.record_show.specs.Processes.{shown_id};

use id_tree::{Id, IdPart, IdView};

// How many pairs are around the deepest leaf of a part.
fn part_depth(part: &IdView<'_>) -> usize
    requires { depth part.now ≤ depth_limit }
    ensures { result ≡ depth part.now }
{
    match part.part() {
        IdPart::Nothing | IdPart::Everything => 0,
        IdPart::Halves(left, right) => part_depth(&left).max(part_depth(&right)) + 1,
    }
}

/// How many pairs are around the deepest leaf of the id that is shown.
pub(crate) fn shown_depth(id: Option<&Id>) -> usize
    ensures { result ≡ depth (shown_id (option_copied id.entry)) }
{
    match id {
        None => 0,
        Some(id) => {
            id.recall_facts();
            part_depth(&id.view())
        }
    }
}

/// How many pairs and leaves the id that is shown has.
pub(crate) fn shown_size(id: Option<&Id>) -> usize
    ensures { result ≡ size (shown_id (option_copied id.entry)) }
{
    match id {
        None => 1,
        Some(id) => id.size(),
    }
}
