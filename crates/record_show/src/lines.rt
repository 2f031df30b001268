//! The records of a file, a line each.

ghost use Rattle.std.specs.Prelude.{◌≡◌, ◌++◌, ◌+◌, ◌^◌, ◌<◌, OnOk, IfOk, length};
ghost use Rattle.record_file.specs.Kept.{said_in};
ghost use Rattle.record_show.specs.Lines.{record_line, lines_text};

use crate::pushing::push_number;
use std::alloc::{AllocError, Global};

// Appends the line of a record in front of which so many stand.
fn push_record(out: &mut Vec<u8>, before: usize, said: &(u32, Vec<u8>)) -> Result<(), AllocError>
    requires { before + 1 < 2 ^ 64 }
    ensures { OnOk result (out.new.items ≡ out.old.items ++ record_line before (said.now.0, said.now.1.items)) }
{
    push_number(out, b"", before + 1)?;
    push_number(out, b" ", said.0 as usize)?;
    out.push(b' ')?;
    out.extend_from_slice(&said.1)?;
    out.push(b'\n')?;
    Ok(())
}

/// The records of a file, a line each: its number from 1, its epoch, and its line.
pub fn to_lines(alloc: Global, records: &[(u32, Vec<u8>)]) -> Result<Vec<u8>, AllocError>
    ensures { IfOk result (λ text. text.items ≡ lines_text (said_in records.now)) }
{
    let mut out = Vec::new(alloc);
    for i in 0..records.len() {
        push_record(&mut out, i, &records[i])?;
    }
    Ok(out)
}
