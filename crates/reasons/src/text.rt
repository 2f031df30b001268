//! The text of a certificate.

ghost use Rattle.std.specs.Prelude.{◌≡◌, ◌++◌, IfOk, OnOk, IsTrue, map, string_bytes};
ghost use Rattle.std.specs.List.{list_all};
ghost use Rattle.report_line.specs.Names.{is_name_byte};
ghost use Rattle.reasons.specs.CertificateText.{quoted, bracketed, position_text, shown_name, place_text, certificate_text};
ghost use Rattle.reasons.specs.working.Json.{comma_before, first_key};

use crate::certificate::Certificate;
use chains::{Chains, Place, Places, Position};
use itoa::Buffer;
use std::alloc::AllocError;

/// The name that is shown for the number of a process.
fn shown_name(chains: &Chains, number: u32) -> &str
    ensures value { result.now ≡ shown_name chains.now.accepted number }
    ensures plain { IsTrue (list_all is_name_byte result.now) }
{
    if number >= chains.count() {
        return "";
    }
    match str::from_utf8(chains.name_of(number).as_bytes()) {
        Ok(name) => name,
        Err(_) => unreachable!(),
    }
}

/// Appends the name of a process by its number.
fn put_name(out: &mut String, chains: &Chains, number: u32) -> Result<(), AllocError>
    ensures { OnOk result (string_bytes out.new ≡ string_bytes out.old ++ quoted (shown_name chains.now.accepted number)) }
{
    out.push_str("\"")?;
    out.push_str(shown_name(chains, number))?;
    out.push_str("\"")
}

/// Appends a position, without its process.
fn put_position(out: &mut String, position: Position) -> Result<(), AllocError>
    ensures { OnOk result (string_bytes out.new ≡ string_bytes out.old ++ position_text position) }
{
    match position {
        Position::At(k) => {
            let mut digits = Buffer::new();
            out.push_str(digits.format(k))
        }
        Position::Retired => out.push_str("\"retired\""),
    }
}

/// Appends a name and a position.
fn put_place(out: &mut String, chains: &Chains, place: Place) -> Result<(), AllocError>
    ensures { OnOk result (string_bytes out.new ≡ string_bytes out.old ++ place_text chains.now.accepted place) }
{
    out.push_str("[")?;
    put_name(out, chains, place.process)?;
    out.push_str(",")?;
    put_position(out, place.position)?;
    out.push_str("]")
}

/// Appends the comma that stands in front of each entry of a list but the first.
fn put_comma(out: &mut String, entry: usize) -> Result<(), AllocError>
    ensures { OnOk result (string_bytes out.new ≡ string_bytes out.old ++ comma_before entry) }
{
    if entry == 0 {
        return Ok(());
    }
    out.push_str(",")
}

/// Appends the names of processes by their numbers.
fn put_names(out: &mut String, chains: &Chains, numbers: &[u32]) -> Result<(), AllocError>
    ensures { OnOk result (string_bytes out.new ≡ string_bytes out.old ++ bracketed (map (λ p. quoted (shown_name chains.now.accepted p)) numbers.now)) }
{
    out.push_str("[")?;
    for i in 0..numbers.len() {
        put_comma(out, i)?;
        put_name(out, chains, numbers[i])?;
    }
    out.push_str("]")
}

/// Appends places in a row.
fn put_places(out: &mut String, chains: &Chains, places: &[Place]) -> Result<(), AllocError>
    ensures { OnOk result (string_bytes out.new ≡ string_bytes out.old ++ bracketed (map (place_text chains.now.accepted) places.now)) }
{
    out.push_str("[")?;
    for i in 0..places.len() {
        put_comma(out, i)?;
        put_place(out, chains, places[i])?;
    }
    out.push_str("]")
}

/// Appends reason chains in a row.
fn put_reasons(out: &mut String, chains: &Chains, reasons: &[Places]) -> Result<(), AllocError>
    ensures { OnOk result (string_bytes out.new ≡ string_bytes out.old ++ bracketed (map (λ chain. bracketed (map (place_text chains.now.accepted) chain)) reasons.now)) }
{
    out.push_str("[")?;
    for i in 0..reasons.len() {
        put_comma(out, i)?;
        put_places(out, chains, reasons[i].as_slice())?;
    }
    out.push_str("]")
}

/// Appends the brace and the first key. The brace comes by itself, so that the room of a text doubles from eight bytes on.
fn put_first_key(out: &mut String) -> Result<(), AllocError>
    ensures { OnOk result (string_bytes out.new ≡ string_bytes out.old ++ first_key) }
{
    out.push_str("{")?;
    out.push_str("\"failed\":")
}

/// Appends the text of a certificate.
fn put_certificate(
    out: &mut String,
    chains: &Chains,
    certificate: &Certificate,
) -> Result<(), AllocError>
    ensures { OnOk result (string_bytes out.new ≡ string_bytes out.old ++ certificate_text chains.now.accepted certificate.now) }
{
    put_first_key(out)?;
    put_names(out, chains, certificate.failed.as_slice())?;
    out.push_str(",\"front\":")?;
    let mut digits = Buffer::new();
    out.push_str(digits.format(certificate.front))?;
    out.push_str(",\"line\":")?;
    put_places(out, chains, certificate.line.as_slice())?;
    out.push_str(",\"reasons\":")?;
    put_reasons(out, chains, certificate.reasons.as_slice())?;
    out.push_str("}")?;
    Ok(())
}

/// The compact JSON text of a certificate over these chains, whose names it shows. A number that no process has is shown
/// as an empty name.
pub fn to_json(chains: &Chains, certificate: &Certificate) -> Result<String, AllocError>
    ensures { IfOk result (λ text. string_bytes text ≡ certificate_text chains.now.accepted certificate.now) }
{
    let mut text = String::new(chains.alloc());
    put_certificate(&mut text, chains, certificate)?;
    Ok(text)
}
