//! Numbers in decimal.

ghost use Rattle.std.specs.Prelude.{◌≡◌, ◌++◌, OnOk, OnErr};
ghost use Rattle.std.specs.Fmt.{decimal};

use itoa::Buffer;
use std::alloc::AllocError;

// Appends the digits of a number.
pub(crate) fn push_number(out: &mut Vec<u8>, n: u32) -> Result<(), AllocError>
    ensures ok { OnOk result (out.new.items ≡ out.old.items ++ decimal n) }
    ensures err { OnErr result (out.new.items ≡ out.old.items) }
{
    let mut digits = Buffer::new();
    out.extend_from_slice(digits.format(n).as_bytes())
}
