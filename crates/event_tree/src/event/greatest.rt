//! The greatest value of a part.

ghost use Rattle.std.specs.Prelude.{◌≡◌, ◌<◌, ◌^◌};
ghost use Rattle.event_tree.specs.NormalForm.{greatest};

use crate::layout::view::{EventPart, EventView};

// The greatest value. A node of two leaves takes no call more.
pub fn greatest(e: &EventView) -> u32
    requires { greatest e.now < 2 ^ 32 }
    ensures { result ≡ greatest e.now }
{
    if let Some((n, p, q)) = e.leaf_pair() {
        return n + p.max(q);
    }
    match e.part() {
        EventPart::Leaf(n) => n,
        EventPart::Node(n, a, b) => n + greatest(&a).max(greatest(&b)),
    }
}

// The same. A leaf takes no call.
#[inline(always)]
pub fn greatest_of(e: &EventView) -> u32
    requires { greatest e.now < 2 ^ 32 }
    ensures { result ≡ greatest e.now }
{
    match e.leaf() {
        Some(n) => n,
        None => greatest(e),
    }
}
