//! Which calls of a disk in memory are to fail.

ghost use Rattle.std.specs.Prelude.{◌≡◌};
ghost use Rattle.line_disk.specs.Plans.{planned_at};

/// What a failing call did.
#[derive(Clone, Copy, Debug, PartialEq, Eq)]
pub enum Effect {
    Nothing,
    All,
}

/// A call that is to fail, counted from 1 and from the first call of all.
#[derive(Clone, Copy, Debug, PartialEq, Eq)]
pub struct Planned {
    pub call: usize,
    pub effect: Effect,
}

/// What the call of this number is to do, if it is to fail.
pub(crate) fn effect_of(plan: &[Planned], call: usize) -> Option<Effect>
    ensures { result ≡ planned_at plan.now call }
{
    for planned in plan {
        if planned.call == call {
            return Some(planned.effect);
        }
    }
    None
}
