//! Whether one id is the sum of two others, by a walk of the three.

ghost use Rattle.std.specs.Prelude.{◌≡◌, ◌↔◌, IsTrue};
ghost use Rattle.id_tree.specs.working.Tests.{IsSumBy};

use crate::view::{IdPart, IdView};

// Whether both are the same part.
fn is_same(one: &IdView, other: &IdView) -> bool
    ensures { IsTrue result ↔ (one.now ≡ other.now) }
{
    match (one.part(), other.part()) {
        (IdPart::Nothing, IdPart::Nothing) | (IdPart::Everything, IdPart::Everything) => true,
        (IdPart::Halves(a, b), IdPart::Halves(c, d)) => is_same(&a, &c) && is_same(&b, &d),
        _ => false,
    }
}

// Whether the whole owns just what the two others own, who own no point both, where all are in normal form.
pub fn is_sum_by(whole: &IdView, left: &IdView, right: &IdView) -> bool
    ensures { IsTrue result ↔ IsSumBy whole.now left.now right.now }
{
    match (left.part(), right.part()) {
        (IdPart::Nothing, _) => is_same(whole, right),
        (_, IdPart::Nothing) => is_same(whole, left),
        (IdPart::Halves(a, b), IdPart::Halves(c, d)) => match whole.part() {
            IdPart::Nothing => false,
            IdPart::Everything => is_sum_by(whole, &a, &c) && is_sum_by(whole, &b, &d),
            IdPart::Halves(x, y) => is_sum_by(&x, &a, &c) && is_sum_by(&y, &b, &d),
        },
        _ => false,
    }
}
