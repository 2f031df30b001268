//! Texts that are put together of pieces.

ghost use Rattle.std.specs.Prelude.{◌≡◌, ◌<◌, ◌++◌, OnOk};
ghost use Rattle.std.specs.Fmt.{decimal};
ghost use Rattle.std.specs.List.{flat_map};
ghost use Rattle.record_show.specs.Strings.{is_plain, hex_digit, escaped, string};

use itoa::Buffer;
use std::alloc::AllocError;

/// Appends a word and a number.
pub(crate) fn push_number(out: &mut Vec<u8>, word: &[u8], number: usize) -> Result<(), AllocError>
    ensures { OnOk result (out.new.items ≡ out.old.items ++ (word.now ++ decimal number)) }
{
    let mut digits = Buffer::new();
    out.extend_from_slice(word)?;
    out.extend_from_slice(digits.format(number).as_bytes())
}

// Whether the byte stands for itself in a string of JSON.
#[tactic(auto, unfolding(crate::specs::Strings::is_plain))]
fn is_plain(byte: u8) -> bool
    ensures { result ≡ is_plain byte }
{
    32 <= byte && byte <= 126 && byte != b'"' && byte != b'\\'
}

// A digit of base 16.
#[tactic(auto, unfolding(crate::specs::Strings::hex_digit))]
fn hex_digit(digit: u8) -> u8
    requires { digit < 16 }
    ensures { result ≡ hex_digit digit }
{
    if digit < 10 {
        b'0' + digit
    } else {
        b'W' + digit
    }
}

// Appends a byte as it stands in a string of JSON.
fn push_escaped(out: &mut Vec<u8>, byte: u8) -> Result<(), AllocError>
    ensures { OnOk result (out.new.items ≡ out.old.items ++ escaped byte) }
{
    if is_plain(byte) {
        out.push(byte)?;
        return Ok(());
    }
    out.extend_from_slice(b"\\u00")?;
    out.push(hex_digit(byte / 16))?;
    out.push(hex_digit(byte % 16))?;
    Ok(())
}

// Appends a text as it stands in a string of JSON.
fn push_text(out: &mut Vec<u8>, text: &[u8]) -> Result<(), AllocError>
    ensures { OnOk result (out.new.items ≡ out.old.items ++ flat_map escaped text.now) }
{
    for byte in text {
        push_escaped(out, *byte)?;
    }
    Ok(())
}

/// Appends a word and a string of JSON.
pub(crate) fn push_string(out: &mut Vec<u8>, word: &[u8], text: &[u8]) -> Result<(), AllocError>
    ensures { OnOk result (out.new.items ≡ out.old.items ++ (word.now ++ string text.now)) }
{
    out.extend_from_slice(word)?;
    out.push(b'"')?;
    push_text(out, text)?;
    out.push(b'"')?;
    Ok(())
}
