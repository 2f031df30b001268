//! Reports among others, by their place.

ghost use Rattle.std.specs.Prelude.{◌≡◌, option_copied, slice_get};

use report_line::{PackedReport, Shared};

/// Report i of these, counted from 0.
pub(crate) fn at_index(reports: &[Shared<PackedReport>], i: u32) -> Option<&PackedReport>
    ensures { option_copied result ≡ slice_get reports.now i }
{
    match reports.get(i as usize) {
        None => None,
        Some(report) => Some(report),
    }
}

/// Number i of these, counted from 0.
pub(crate) fn number_at(numbers: &[u32], i: u32) -> Option<u32>
    ensures { result ≡ slice_get numbers.now i }
{
    numbers.get(i as usize).copied()
}
