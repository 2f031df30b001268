//! The bytes that a crash in the middle of the noted calls could leave.

ghost use Rattle.std.specs.Prelude.{◌≡◌, IfOk, OnOk};
ghost use Rattle.line_disk.specs.working.Noting.{call_of, noted_calls};
ghost use Rattle.line_disk.specs.Replay.{after_call, after_part, image_at};

use crate::change::{Change, Noted};
use crate::overwrite::overwrite;
use std::alloc::{AllocError, Global};

/// Makes a change once more.
fn redo(file: &mut Vec<u8>, change: &Change) -> Result<(), AllocError>
    ensures { OnOk result (file.new.items ≡ after_call file.old.items (call_of change.now)) }
{
    match change {
        Change::Write(at, bytes) => {
            if *at <= file.len() {
                overwrite(file, *at, bytes)?;
            }
        }
        Change::Cut(len) => file.truncate(*len),
        Change::Sync => {}
    }
    Ok(())
}

/// Makes the first n bytes of a write once more.
fn redo_part(file: &mut Vec<u8>, change: &Change, n: usize) -> Result<(), AllocError>
    ensures { OnOk result (file.new.items ≡ after_part file.old.items (call_of change.now) n) }
{
    if let Change::Write(at, bytes) = change {
        if *at <= file.len() {
            let part = bytes.len().min(n);
            overwrite(file, *at, &bytes[..part])?;
        }
    }
    Ok(())
}

/// The file after k calls and n bytes of the next one, if that is a write.
pub(crate) fn image_of(
    alloc: Global,
    first: &[u8],
    noted: &[Noted],
    k: usize,
    n: usize,
) -> Result<Vec<u8>, AllocError>
    ensures { IfOk result (λ image. image.items ≡ image_at first.now (noted_calls noted.now) k n) }
{
    let mut file = first.to_vec(alloc)?;
    let mut left = k;
    for call in noted {
        if left < call.idle {
            return Ok(file);
        }
        left -= call.idle;
        if left == 0 {
            redo_part(&mut file, &call.change, n)?;
            return Ok(file);
        }
        left -= 1;
        redo(&mut file, &call.change)?;
    }
    Ok(file)
}
