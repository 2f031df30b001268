//! One object of JSON, for programs.

ghost use Rattle.std.specs.Prelude.{◌≡◌, ◌++◌, ◌+◌, ◌^◌, ◌<◌, OnOk, IfOk, List, ℕ, Vec, Option, option_copied};
ghost use Rattle.std.specs.Option.{option_map};
ghost use Rattle.record_file.specs.Kept.{said_in};
ghost use Rattle.record_show.specs.Numbered.{comma_before, numbered};
ghost use Rattle.record_show.specs.Json.{counts_json, lost_json, process_json, record_json, file_json, processes_json, records_json, asked_json, json_text};

use crate::columns::state_word;
use crate::pushing::{push_number, push_string};
use crate::shown::{ShownFile, ShownProcess};
use report_line::Name;
use std::alloc::{AllocError, Global};

// Appends the comma that stands in front of each thing of a list but the first.
fn push_comma(out: &mut Vec<u8>, before: usize) -> Result<(), AllocError>
    ensures { OnOk result (out.new.items ≡ out.old.items ++ comma_before before) }
{
    if before == 0 {
        return Ok(());
    }
    out.push(b',')?;
    Ok(())
}

// Appends the members of a process that are numbers.
fn push_counts(out: &mut Vec<u8>, process: &ShownProcess) -> Result<(), AllocError>
    ensures { OnOk result (out.new.items ≡ out.old.items ++ counts_json process.now) }
{
    push_number(out, b",\"reports\":", process.reports as usize)?;
    push_number(out, b",\"elements\":", process.elements as usize)?;
    push_number(out, b",\"depth\":", process.depth)?;
    push_number(out, b",\"size\":", process.size)?;
    Ok(())
}

// Appends the target of a retirement that is never absorbed, if the target retired.
fn push_lost(out: &mut Vec<u8>, lost_in: &Option<Name>) -> Result<(), AllocError>
    ensures { OnOk result (out.new.items ≡ out.old.items ++ lost_json lost_in.now) }
{
    match lost_in {
        None => Ok(()),
        Some(target) => push_string(out, b",\"never_absorbed_by\":", target.as_bytes()),
    }
}

// Appends a process in front of which so many stand.
fn push_process(out: &mut Vec<u8>, before: usize, process: &ShownProcess) -> Result<(), AllocError>
    ensures { OnOk result (out.new.items ≡ out.old.items ++ process_json before process.now) }
{
    push_comma(out, before)?;
    push_string(out, b"{\"process\":", process.name.as_bytes())?;
    push_string(out, b",\"state\":", state_word(process.state))?;
    push_counts(out, process)?;
    push_string(out, b",\"last\":", process.last.as_bytes())?;
    push_lost(out, &process.lost_in)?;
    out.extend_from_slice(b"}")?;
    Ok(())
}

// Appends a record in front of which so many stand.
fn push_record(out: &mut Vec<u8>, before: usize, said: &(u32, Vec<u8>)) -> Result<(), AllocError>
    requires { before + 1 < 2 ^ 64 }
    ensures { OnOk result (out.new.items ≡ out.old.items ++ record_json before (said.now.0, said.now.1.items)) }
{
    push_comma(out, before)?;
    push_number(out, b"{\"number\":", before + 1)?;
    push_number(out, b",\"epoch\":", said.0 as usize)?;
    push_string(out, b",\"line\":", &said.1)?;
    out.extend_from_slice(b"}")?;
    Ok(())
}

// Appends the members of the file.
fn push_file(out: &mut Vec<u8>, file: ShownFile) -> Result<(), AllocError>
    ensures { OnOk result (out.new.items ≡ out.old.items ++ file_json file) }
{
    push_number(out, b"{\"version\":", file.version)?;
    push_number(out, b",\"records\":", file.records)?;
    push_number(out, b",\"front\":", file.front as usize)?;
    push_number(out, b",\"epoch\":", file.epoch as usize)?;
    push_number(out, b",\"tail\":", file.tail)?;
    Ok(())
}

// Appends each of the processes.
fn push_each_process(out: &mut Vec<u8>, processes: &[ShownProcess]) -> Result<(), AllocError>
    ensures { OnOk result (out.new.items ≡ out.old.items ++ numbered process_json 0 processes.now) }
{
    for i in 0..processes.len() {
        push_process(out, i, &processes[i])?;
    }
    Ok(())
}

// Appends the processes.
fn push_processes(out: &mut Vec<u8>, processes: &[ShownProcess]) -> Result<(), AllocError>
    ensures { OnOk result (out.new.items ≡ out.old.items ++ processes_json processes.now) }
{
    out.extend_from_slice(b",\"processes\":[")?;
    push_each_process(out, processes)?;
    out.extend_from_slice(b"]")?;
    Ok(())
}

// Appends each of the records.
fn push_each_record(out: &mut Vec<u8>, records: &[(u32, Vec<u8>)]) -> Result<(), AllocError>
    ensures { OnOk result (out.new.items ≡ out.old.items ++ numbered record_json 0 (said_in records.now)) }
{
    for i in 0..records.len() {
        push_record(out, i, &records[i])?;
    }
    Ok(())
}

// Appends the records.
fn push_records(out: &mut Vec<u8>, records: &[(u32, Vec<u8>)]) -> Result<(), AllocError>
    ensures { OnOk result (out.new.items ≡ out.old.items ++ records_json (said_in records.now)) }
{
    out.extend_from_slice(b",\"reports\":[")?;
    push_each_record(out, records)?;
    out.extend_from_slice(b"]")?;
    Ok(())
}

// Appends the records, if there are any to be shown.
fn push_asked(out: &mut Vec<u8>, asked: Option<&[(u32, Vec<u8>)]>) -> Result<(), AllocError>
    ensures { OnOk result (out.new.items ≡ out.old.items ++ asked_json (option_map said_in (option_copied asked.entry))) }
{
    match asked {
        None => Ok(()),
        Some(records) => push_records(out, records),
    }
}

/// The object of these processes behind what is shown of the file, and of the records, if they are asked for.
pub(crate) fn json_of(
    alloc: Global,
    file: ShownFile,
    processes: &[ShownProcess],
    asked: Option<&[(u32, Vec<u8>)]>,
) -> Result<Vec<u8>, AllocError>
    ensures { IfOk result (λ text. text.items ≡ json_text file processes.now (option_map said_in (option_copied asked.entry))) }
{
    let mut out = Vec::new(alloc);
    push_file(&mut out, file)?;
    push_processes(&mut out, processes)?;
    push_asked(&mut out, asked)?;
    out.extend_from_slice(b"}\n")?;
    Ok(out)
}
