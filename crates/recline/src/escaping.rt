//! Names in fault lines, as strings of JSON have them.

ghost use Rattle.std.specs.Prelude.{◌≡◌, ◌<◌, ◌≤◌, ◌++◌, ◌^◌, length, IfOk, IsTrue, OnOk};
ghost use Rattle.recline.specs.Escaped.{escaped, hex_digit, is_plain, pair, shown_name, unit};

use std::alloc::{AllocError, Global};

/// How many bytes of a name are shown at most.
const MOST_SHOWN: usize = 64;

/// Whether the character stands for itself: printable ASCII, and neither `"` nor `\`.
#[tactic(auto, unfolding(crate::specs::Escaped::is_plain))]
fn is_plain(code: u32) -> bool
    ensures plain { result ≡ is_plain code }
    ensures within { IsTrue result → code ≤ 126 }
{
    32 <= code && code <= 126 && code != 34 && code != 92
}

/// A digit of base 16.
#[tactic(auto, unfolding(crate::specs::Escaped::hex_digit))]
fn hex_digit(digit: u32) -> u8
    requires { digit < 16 }
    ensures { result ≡ hex_digit digit }
{
    if digit < 10 {
        b'0' + digit as u8
    } else {
        b'W' + digit as u8
    }
}

/// Appends `\u` and the four digits of a unit of UTF-16.
fn push_unit(text: &mut Vec<u8>, code: u32) -> Result<(), AllocError>
    requires { code < 2 ^ 16 }
    ensures { OnOk result (text.new.items ≡ text.old.items ++ unit code) }
{
    let digits = [
        b'\\',
        b'u',
        hex_digit(code / 4096),
        hex_digit(code / 256 % 16),
        hex_digit(code / 16 % 16),
        hex_digit(code % 16),
    ];
    text.extend_from_slice(&digits)
}

/// Appends the two units of UTF-16 of a character after the first 65,536.
fn push_pair(text: &mut Vec<u8>, code: u32) -> Result<(), AllocError>
    requires above { 2 ^ 16 ≤ code }
    requires scalar { code < 1114112 }
    ensures { OnOk result (text.new.items ≡ text.old.items ++ pair code) }
{
    push_unit(text, 55296 + (code - 65536) / 1024)?;
    push_unit(text, 56320 + (code - 65536) % 1024)
}

/// Appends a character as it stands in a string of JSON.
fn push_escaped(text: &mut Vec<u8>, code: u32) -> Result<(), AllocError>
    requires { code < 1114112 }
    ensures { OnOk result (text.new.items ≡ text.old.items ++ escaped code) }
{
    if is_plain(code) {
        text.push(code as u8)?;
        return Ok(());
    }
    if code < 65536 {
        return push_unit(text, code);
    }
    push_pair(text, code)
}

/// How many bytes stand for a character.
fn escaped_length(code: u32) -> usize
    ensures { result ≡ length (escaped code) }
{
    if is_plain(code) {
        1
    } else if code < 65536 {
        6
    } else {
        12
    }
}

/// A name as it stands in a fault line.
pub(crate) fn shown_name(alloc: Global, name: &str) -> Result<Vec<u8>, AllocError>
    ensures { IfOk result (λ text. text.items ≡ shown_name name.now) }
{
    let mut text = Vec::new(alloc);
    for c in name.chars() {
        let code = c as u32;
        if escaped_length(code) > MOST_SHOWN - text.len() {
            text.extend_from_slice(b"..")?;
            return Ok(text);
        }
        push_escaped(&mut text, code)?;
    }
    Ok(text)
}
