//! The command `draw`.

use crate::commented::ScriptForm;
use crate::copied::desk_of;
use crate::driving::{ReadScript, Unread, read_script};
use crate::escaping::shown_name;
use crate::telling::{tell, tell_all, tell_refusal, tell_unopened, write_all};
use chains::Chains;
use client_link::Link;
use itoa::Buffer;
use picture::{Ending, draw, draw_accepted};
use report_line::{Name, Names, read_names, wrong_part};
use std::alloc::Global;

/// Why a list of names is not taken.
enum Unnamed<'a> {
    /// This part of it is no name.
    Part(&'a [u8]),
    Memory,
}

/// The names of a list, which have commas between them; `-` has none.
fn names_of<'a>(alloc: Global, list: &'a [u8]) -> Result<Names, Unnamed<'a>> {
    if list != b"-".as_slice()
        && let Some(part) = wrong_part(list)
    {
        return Err(Unnamed::Part(part));
    }
    // A list whose parts are names is refused for memory alone.
    match read_names(alloc, list) {
        Ok(names) => Ok(names),
        Err(_) => Err(Unnamed::Memory),
    }
}

/// Tells that no process has the name that is written so, and answers the status.
fn tell_unknown<F: Link>(faults: &mut F, shown: &[u8]) -> u8 {
    tell_all(
        faults,
        &[b"recline: unknown ".as_slice(), shown, b"\n".as_slice()],
    );
    2
}

/// Tells that no process has this name of the command line, which is written as a string of JSON has it, and answers the status.
fn tell_no_name<F: Link>(alloc: Global, faults: &mut F, word: &[u8]) -> u8 {
    // What stands between two commas of a text is a text.
    let name = str::from_utf8(word).unwrap_or("");
    match shown_name(alloc, name) {
        Ok(shown) => tell_unknown(faults, &shown),
        Err(_) => tell_failure(faults, b"recline: memory\n"),
    }
}

/// Tells that the report of the step of this line is more than are accepted, and answers the status.
fn tell_full<F: Link>(faults: &mut F, step: u64) -> u8 {
    let mut digits = Buffer::new();
    tell_all(
        faults,
        &[
            b"recline: step ".as_slice(),
            digits.format(step).as_bytes(),
            b" full\n".as_slice(),
        ],
    );
    2
}

/// Tells that memory or a device failed, and answers the status.
fn tell_failure<F: Link>(faults: &mut F, line: &[u8]) -> u8 {
    tell(faults, line);
    3
}

/// How the drawing of a script ended, where that of what is driven of it ended so.
fn ending_in(script: &ReadScript, ending: Ending) -> Ending {
    match ending {
        Ending::Refused { step, cause } => Ending::Refused {
            step: script.line_of(step),
            cause,
        },
        Ending::Full { step } => Ending::Full {
            step: script.line_of(step),
        },
        other => other,
    }
}

/// Tells how the drawing ended, where not all steps are in the picture, and answers the status.
fn tell_ending<F: Link>(faults: &mut F, ending: &Ending) -> u8 {
    match ending {
        Ending::Done => 0,
        Ending::Refused { step, cause } => {
            tell_refusal(faults, *step, *cause);
            2
        }
        Ending::Full { step } => tell_full(faults, *step),
        Ending::Unknown(name) => tell_unknown(faults, name.as_bytes()),
        Ending::Memory => tell_failure(faults, b"recline: memory\n"),
    }
}

/// Writes a picture, tells why it is not whole, if it is not, and answers the status.
fn write_picture<K: Link, F: Link>(
    client: &mut K,
    faults: &mut F,
    svg: &[u8],
    ending: &Ending,
) -> u8 {
    match write_all(client, svg) {
        Ok(()) => tell_ending(faults, ending),
        Err(_) => tell_failure(faults, b"recline: device\n"),
    }
}

/// Draws the script that the client gives in this form, where the processes of these names failed.
fn draw_over<K: Link, F: Link>(
    alloc: Global,
    client: &mut K,
    faults: &mut F,
    form: ScriptForm,
    failed: &Names,
) -> u8 {
    let script = match read_script(alloc, client, form) {
        Ok(script) => script,
        Err(Unread::Memory) => return tell_failure(faults, b"recline: memory\n"),
        Err(Unread::Device) => return tell_failure(faults, b"recline: device\n"),
    };
    let (svg, ending) = draw(alloc, script.steps(), failed);
    write_picture(client, faults, &svg, &ending_in(&script, ending))
}

/// The picture of what these chains hold, where the processes of these names failed, with why this one has to return.
fn draw_held<K: Link, F: Link>(
    chains: &Chains,
    client: &mut K,
    faults: &mut F,
    failed: &Names,
    why: Option<&Name>,
) -> u8 {
    let (svg, ending) = draw_accepted(chains, failed, why);
    write_picture(client, faults, &svg, &ending)
}

/// The same of what a record file of these bytes keeps.
fn draw_records_over<K: Link, F: Link>(
    alloc: Global,
    bytes: &[u8],
    client: &mut K,
    faults: &mut F,
    failed: &Names,
    why: Option<&Name>,
) -> u8 {
    match desk_of(alloc, bytes) {
        Ok(desk) => draw_held(desk.chains(), client, faults, failed, why),
        Err(fault) => {
            tell_unopened(faults, fault);
            3
        }
    }
}

/// The command `draw`: writes the picture of the script that the client gives in this form to the client, where the processes of this
/// list failed, or none without a list; tells why it is not whole, and answers the status of the process. A list with a part that is no name
/// is told before the script is read.
pub fn draw_on<K: Link, F: Link>(
    alloc: Global,
    client: &mut K,
    faults: &mut F,
    form: ScriptForm,
    failed: Option<&str>,
) -> u8 {
    match names_of(alloc, failed.unwrap_or("-").as_bytes()) {
        Ok(names) => draw_over(alloc, client, faults, form, &names),
        Err(Unnamed::Part(part)) => tell_no_name(alloc, faults, part),
        Err(Unnamed::Memory) => tell_failure(faults, b"recline: memory\n"),
    }
}

/// The command `draw` of a record file of these bytes: writes the picture of what it keeps to the client, where the processes of this list
/// failed, or none without a list, and with the reasons for which this process has to return, if one is named; tells why there is no picture, and
/// answers the status of the process. The bytes are only read.
pub fn draw_records_on<K: Link, F: Link>(
    alloc: Global,
    bytes: &[u8],
    client: &mut K,
    faults: &mut F,
    failed: Option<&str>,
    why: Option<&str>,
) -> u8 {
    let names = match names_of(alloc, failed.unwrap_or("-").as_bytes()) {
        Ok(names) => names,
        Err(Unnamed::Part(part)) => return tell_no_name(alloc, faults, part),
        Err(Unnamed::Memory) => return tell_failure(faults, b"recline: memory\n"),
    };
    let Some(asked) = why else {
        return draw_records_over(alloc, bytes, client, faults, &names, None);
    };
    match Name::from_bytes(asked.as_bytes()) {
        Some(name) => draw_records_over(alloc, bytes, client, faults, &names, Some(&name)),
        None => tell_no_name(alloc, faults, asked.as_bytes()),
    }
}
