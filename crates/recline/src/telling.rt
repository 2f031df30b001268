//! What the commands write and tell.

ghost use Rattle.std.specs.Prelude.{◌≡◌};
ghost use Rattle.std.specs.List.{flat_map};
ghost use Rattle.desk.specs.declared.fault.DeskFault.TheVariants as opening;
ghost use Rattle.earlier_file.specs.declared.fault.EarlierFault.TheVariants as early;
ghost use Rattle.recline.specs.Earlier.{earlier_fault_line};
ghost use Rattle.recline.specs.Outcome.{Tells, open_fault_line};
ghost use Rattle.recline.specs.Driving.{script_fault};
ghost use Rattle.recline.specs.working.Driving.{Writes};

use client_link::{Link, LinkFault, put_all};
use desk::DeskFault;
use itoa::Buffer;
use script::{Cause, End};

/// Writes the pieces and hands them on.
pub(crate) fn write_pieces<K: Link>(link: &mut K, pieces: &[&[u8]]) -> Result<(), LinkFault>
    ensures writes { Writes (K.told link.old) (K.told link.new) result (flat_map (λ p. p.now) pieces.now) }
    ensures left { (K.told link.new).left ≡ (K.told link.old).left }
    ensures reads { (K.told link.new).reads ≡ (K.told link.old).reads }
{
    let Ok(()) = put_all(link, pieces) else {
        return Err(LinkFault::Device);
    };
    match link.flush() {
        Ok(()) => Ok(()),
        Err(_) => Err(LinkFault::Device),
    }
}

/// Writes all of the text and hands it on.
pub(crate) fn write_all<K: Link>(link: &mut K, text: &[u8]) -> Result<(), LinkFault>
    ensures writes { Writes (K.told link.old) (K.told link.new) result text.now }
    ensures left { (K.told link.new).left ≡ (K.told link.old).left }
    ensures reads { (K.told link.new).reads ≡ (K.told link.old).reads }
{
    write_pieces(link, &[text])
}

/// Writes the pieces of a fault line and hands them on, as far as that can be done.
pub(crate) fn tell_all<F: Link>(faults: &mut F, pieces: &[&[u8]])
    ensures { Tells (F.told faults.old) (F.told faults.new) (flat_map (λ p. p.now) pieces.now) }
{
    let _written = write_pieces(faults, pieces);
}

/// The same of a fault line in one piece.
pub(crate) fn tell<F: Link>(faults: &mut F, line: &[u8])
    ensures { Tells (F.told faults.old) (F.told faults.new) line.now }
{
    tell_all(faults, &[line])
}

/// Tells that behind the open gate of the record of this number no whole record lies in the file.
pub(crate) fn tell_damaged<F: Link>(faults: &mut F, number: usize)
    ensures { Tells (F.told faults.old) (F.told faults.new) (open_fault_line (opening.Damaged number)) }
{
    let mut digits = Buffer::new();
    tell_all(
        faults,
        &[
            b"recline: damaged ".as_slice(),
            digits.format(number).as_bytes(),
            b"\n".as_slice(),
        ],
    )
}

/// Tells that the file has only so many records.
pub(crate) fn tell_short<F: Link>(faults: &mut F, number: usize)
    ensures { Tells (F.told faults.old) (F.told faults.new) (earlier_fault_line (early.Short number)) }
{
    let mut digits = Buffer::new();
    tell_all(
        faults,
        &[
            b"recline: short ".as_slice(),
            digits.format(number).as_bytes(),
            b"\n".as_slice(),
        ],
    )
}

/// Tells that the record of this number is not the line of a report.
fn tell_line<F: Link>(faults: &mut F, number: usize)
    ensures { Tells (F.told faults.old) (F.told faults.new) (open_fault_line (opening.Line number)) }
{
    let mut digits = Buffer::new();
    tell_all(
        faults,
        &[
            b"recline: line ".as_slice(),
            digits.format(number).as_bytes(),
            b"\n".as_slice(),
        ],
    )
}

/// Tells that the report of the record of this number is refused by this code.
fn tell_refused<F: Link>(faults: &mut F, number: usize, code: u8)
    ensures { Tells (F.told faults.old) (F.told faults.new) (open_fault_line (opening.Refused number code)) }
{
    let mut of_number = Buffer::new();
    let mut of_code = Buffer::new();
    tell_all(
        faults,
        &[
            b"recline: refused ".as_slice(),
            of_number.format(number).as_bytes(),
            b" ".as_slice(),
            of_code.format(code).as_bytes(),
            b"\n".as_slice(),
        ],
    )
}

/// Tells why a record file was not opened.
pub(crate) fn tell_unopened<F: Link>(faults: &mut F, fault: DeskFault)
    ensures { Tells (F.told faults.old) (F.told faults.new) (open_fault_line fault) }
{
    match fault {
        DeskFault::Foreign => tell(faults, b"recline: foreign\n"),
        DeskFault::Damaged(number) => tell_damaged(faults, number),
        DeskFault::Line(number) => tell_line(faults, number),
        DeskFault::Refused(number, code) => tell_refused(faults, number, code),
        DeskFault::Device => tell(faults, b"recline: device\n"),
        DeskFault::Memory => tell(faults, b"recline: memory\n"),
    }
}

/// Tells that the step of this line was refused.
pub(crate) fn tell_refusal<F: Link>(faults: &mut F, step: u64, cause: Cause)
    ensures { Tells (F.told faults.old) (F.told faults.new) (script_fault (Ok (End.Refused step cause))) }
{
    let mut digits = Buffer::new();
    tell_all(
        faults,
        &[
            b"recline: step ".as_slice(),
            digits.format(step).as_bytes(),
            b" ".as_slice(),
            cause.words(),
            b"\n".as_slice(),
        ],
    )
}
