//! A write, on bytes in memory.

ghost use Rattle.std.specs.Prelude.{◌≡◌, ◌+◌, ◌≤◌, length, vec_capacity, IsOk, OnOk, OnErr};
ghost use Rattle.line_disk.specs.Disk.{written};

use std::alloc::AllocError;

/// Writes over what is there, and past the end.
pub(crate) fn overwrite(file: &mut Vec<u8>, at: usize, bytes: &[u8]) -> Result<(), AllocError>
    requires { at ≤ length file.old.items }
    ensures ok { OnOk result (file.new.items ≡ written file.old.items at bytes.now) }
    ensures err { OnErr result (file.new.items ≡ file.old.items) }
    ensures room { at + length bytes.now ≤ vec_capacity file.old → IsOk result }
{
    let inside = bytes.len().min(file.len() - at);
    file.extend_from_slice(&bytes[inside..])?;
    file[at..at + inside].copy_from_slice(&bytes[..inside]);
    Ok(())
}
