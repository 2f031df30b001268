//! The table for people.

ghost use Rattle.std.specs.Prelude.{◌≡◌, ◌++◌, ◌∷◌, [], OnOk, IfOk};
ghost use Rattle.std.specs.Fmt.{decimal};
ghost use Rattle.std.specs.List.{flat_map};
ghost use Rattle.record_show.specs.Tables.{file_text, process_line, processes_text, table_text};

use crate::columns::{Padded, columns, push_process, push_titles};
use crate::pushing::push_number;
use crate::shown::{ShownFile, ShownProcess};
use std::alloc::{AllocError, Global};

// Appends a line of a word and a number.
fn push_fact(out: &mut Vec<u8>, word: &[u8], number: usize) -> Result<(), AllocError>
    ensures { OnOk result (out.new.items ≡ out.old.items ++ (word.now ++ (decimal number ++ 10 ∷ []))) }
{
    push_number(out, word, number)?;
    out.push(b'\n')?;
    Ok(())
}

// Appends what is shown of the file beside its processes, a line each.
fn push_file(out: &mut Vec<u8>, file: ShownFile) -> Result<(), AllocError>
    ensures { OnOk result (out.new.items ≡ out.old.items ++ file_text file) }
{
    push_fact(out, b"version ", file.version)?;
    push_fact(out, b"records ", file.records)?;
    push_fact(out, b"front ", file.front as usize)?;
    push_fact(out, b"epoch ", file.epoch as usize)?;
    push_fact(out, b"tail ", file.tail)
}

// Appends the lines of the processes.
fn push_processes(
    out: &mut Vec<u8>,
    columns: &[Padded],
    processes: &[ShownProcess],
) -> Result<(), AllocError>
    ensures { OnOk result (out.new.items ≡ out.old.items ++ flat_map (process_line columns.now) processes.now) }
{
    for process in processes {
        push_process(out, columns, process)?;
    }
    Ok(())
}

// Appends the table of the processes.
fn push_table(out: &mut Vec<u8>, processes: &[ShownProcess]) -> Result<(), AllocError>
    ensures { OnOk result (out.new.items ≡ out.old.items ++ processes_text processes.now) }
{
    let columns = columns(processes);
    push_titles(out, &columns)?;
    push_processes(out, &columns, processes)
}

/// The table of these processes behind what is shown of the file.
pub(crate) fn table_of(
    alloc: Global,
    file: ShownFile,
    processes: &[ShownProcess],
) -> Result<Vec<u8>, AllocError>
    ensures { IfOk result (λ text. text.items ≡ table_text file processes.now) }
{
    let mut out = Vec::new(alloc);
    push_file(&mut out, file)?;
    push_table(&mut out, processes)?;
    Ok(out)
}
