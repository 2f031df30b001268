//! Chains in which no place stands twice, since each is below those before it of its process.

ghost use Rattle.std.specs.Prelude.{◌↔◌, ◌+◌, ◌<◌, length, IsTrue};
ghost use Rattle.reason_check.specs.working.Falling.{IsBelow, IsFalling};

use chains::{Place, Position};

/// Whether a position of a process is below another.
fn is_below(a: Position, b: Position) -> bool
    ensures { IsTrue result ↔ IsBelow a b }
{
    match a {
        Position::Retired => false,
        Position::At(j) => match b {
            Position::Retired => true,
            Position::At(k) => j < k,
        },
    }
}

/// Whether entry e too is below all entries of its process from the second on, where so are those before it. It looks back
/// no further than to the last one of its process.
pub(crate) fn still_falls(chain: &[Place], e: usize, falls: bool) -> bool
    requires e { e < length chain.now }
    requires before { IsTrue falls → IsFalling chain.now e }
    ensures { IsTrue result → IsFalling chain.now (e + 1) }
{
    if !falls {
        return false;
    }
    let place = chain[e];
    let mut i = e;
    while i > 1 {
        i -= 1;
        if chain[i].process == place.process {
            return is_below(place.position, chain[i].position);
        }
    }
    true
}
