//! The bytes of a record file as they were at an earlier front.

ghost use Rattle.std.specs.Prelude.{◌≡◌, IfErr, IfOk};
ghost use Rattle.earlier_file.specs.Earlier.{IsFirst, IsReadAsFirst};
ghost use Rattle.earlier_file.specs.declared.fault.EarlierFault.TheVariants as early;
ghost use Rattle.recline.specs.Earlier.{earlier_fault_line, HasNoFront};
ghost use Rattle.recline.specs.Outcome.{Tells};

use crate::telling::{tell, tell_damaged, tell_short};
use client_link::Link;
use earlier_file::{EarlierFault, first_records};
use std::alloc::Global;

/// Tells why a file has no such first records.
pub(crate) fn tell_no_front<F: Link>(faults: &mut F, fault: EarlierFault)
    ensures { Tells (F.told faults.old) (F.told faults.new) (earlier_fault_line fault) }
{
    match fault {
        EarlierFault::Foreign => tell(faults, b"recline: foreign\n"),
        EarlierFault::Damaged(number) => tell_damaged(faults, number),
        EarlierFault::Short(number) => tell_short(faults, number),
        EarlierFault::Memory => tell(faults, b"recline: memory\n"),
    }
}

/// The bytes of a record file as they were when it had its first records alone, so many; or the status, where the cause is told. The bytes
/// are only read.
pub fn at_front<F: Link>(
    alloc: Global,
    bytes: &[u8],
    front: u32,
    faults: &mut F,
) -> Result<Vec<u8>, u8>
    ensures first { IfOk result (λ earlier. IsFirst front bytes.now earlier.items) }
    ensures read { IfOk result (λ earlier. IsReadAsFirst front bytes.now earlier.items) }
    ensures silent { IfOk result (λ earlier. faults.new ≡ faults.old) }
    ensures refused { IfErr result (HasNoFront F.told front bytes.now faults.old faults.new) }
{
    match first_records(alloc, bytes, front as usize) {
        Ok(earlier) => Ok(earlier),
        Err(fault) => {
            tell_no_front(faults, fault);
            Err(3)
        }
    }
}
