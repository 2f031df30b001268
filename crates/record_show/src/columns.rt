//! The columns of the table of processes.

ghost use Rattle.std.specs.Prelude.{◌≡◌, ◌++◌, OnOk, codes, length, replicate};
ghost use Rattle.std.specs.List.{flat_map};
ghost use Rattle.record_show.specs.Tables.{state_word, title, cell, width, as_wide, columns, in_width, titles_line, lost_text, process_line};

use crate::shown::{ShownProcess, ShownState};
use itoa::Buffer;
use report_line::Name;
use std::alloc::AllocError;

/// A column of the table, but for the last.
#[derive(Clone, Copy)]
pub(crate) enum Column {
    Process,
    State,
    Reports,
    Elements,
    Depth,
    Size,
}

/// A column and its width in bytes.
#[derive(Clone, Copy)]
pub(crate) struct Padded {
    pub(crate) column: Column,
    pub(crate) width: usize,
}

/// The word of a state.
pub(crate) fn state_word(state: ShownState) -> &'static [u8]
    ensures { result.now ≡ state_word state }
{
    match state {
        ShownState::Live => b"live",
        ShownState::Waiting => b"waiting",
        ShownState::Absorbed => b"absorbed",
    }
}

// What stands at the top of a column.
fn title(column: Column) -> &'static [u8]
    ensures { result.now ≡ title column }
{
    match column {
        Column::Process => b"PROCESS",
        Column::State => b"STATE",
        Column::Reports => b"REPORTS",
        Column::Elements => b"ELEMENTS",
        Column::Depth => b"DEPTH",
        Column::Size => b"SIZE",
    }
}

// What stands in a column for a process. A number is written into the buffer.
fn cell<'a>(digits: &'a mut Buffer, process: &'a ShownProcess, column: Column) -> &'a [u8]
    ensures { result.now ≡ cell process.now column }
{
    match column {
        Column::Process => process.name.as_bytes(),
        Column::State => state_word(process.state),
        Column::Reports => digits.format(process.reports).as_bytes(),
        Column::Elements => digits.format(process.elements).as_bytes(),
        Column::Depth => digits.format(process.depth).as_bytes(),
        Column::Size => digits.format(process.size).as_bytes(),
    }
}

// How many bytes stand there.
fn cell_width(process: &ShownProcess, column: Column) -> usize
    ensures { result ≡ length (cell process.now column) }
{
    let mut digits = Buffer::new();
    cell(&mut digits, process, column).len()
}

// The column with the width of its widest cell.
fn as_wide(processes: &[ShownProcess], column: Column) -> Padded
    ensures { result ≡ as_wide processes.now column }
{
    let mut width = title(column).len();
    for process in processes {
        width = width.max(cell_width(process, column));
    }
    Padded { column, width }
}

/// The columns, each as wide as its widest cell.
pub(crate) fn columns(processes: &[ShownProcess]) -> [Padded; 6]
    ensures { result ≡ columns processes.now }
{
    [
        as_wide(processes, Column::Process),
        as_wide(processes, Column::State),
        as_wide(processes, Column::Reports),
        as_wide(processes, Column::Elements),
        as_wide(processes, Column::Depth),
        as_wide(processes, Column::Size),
    ]
}

// Appends so many spaces.
fn push_spaces(out: &mut Vec<u8>, count: usize) -> Result<(), AllocError>
    ensures { OnOk result (out.new.items ≡ out.old.items ++ replicate count 32) }
{
    for _i in 0..count {
        out.push(b' ')?;
    }
    Ok(())
}

// Appends a cell, as wide as its column, and two spaces.
fn push_cell(out: &mut Vec<u8>, width: usize, cell: &[u8]) -> Result<(), AllocError>
    ensures { OnOk result (out.new.items ≡ out.old.items ++ in_width width cell.now) }
{
    out.extend_from_slice(cell)?;
    push_spaces(out, width.saturating_sub(cell.len()))?;
    out.extend_from_slice(b"  ")
}

// Appends the cell of a process in a column.
fn push_cell_of(out: &mut Vec<u8>, process: &ShownProcess, padded: Padded) -> Result<(), AllocError>
    ensures { OnOk result (out.new.items ≡ out.old.items ++ in_width padded.width (cell process.now padded.column)) }
{
    let mut digits = Buffer::new();
    push_cell(out, padded.width, cell(&mut digits, process, padded.column))
}

// Appends the titles.
fn push_each_title(out: &mut Vec<u8>, columns: &[Padded]) -> Result<(), AllocError>
    ensures { OnOk result (out.new.items ≡ out.old.items ++ flat_map (λ c. in_width c.width (title c.column)) columns.now) }
{
    for padded in columns {
        push_cell(out, padded.width, title(padded.column))?;
    }
    Ok(())
}

/// Appends the line of the titles.
pub(crate) fn push_titles(out: &mut Vec<u8>, columns: &[Padded]) -> Result<(), AllocError>
    ensures { OnOk result (out.new.items ≡ out.old.items ++ titles_line columns.now) }
{
    push_each_title(out, columns)?;
    out.extend_from_slice(b"LAST ELEMENT\n")
}

// Appends that the retirement into this process is never absorbed.
fn push_lost_in(out: &mut Vec<u8>, target: &Name) -> Result<(), AllocError>
    ensures { OnOk result (out.new.items ≡ out.old.items ++ (codes "  never absorbed: " ++ (target.now ++ codes " is retired"))) }
{
    out.extend_from_slice(b"  never absorbed: ")?;
    out.extend_from_slice(target.as_bytes())?;
    out.extend_from_slice(b" is retired")?;
    Ok(())
}

// Appends it, if the target of the retirement retired.
fn push_lost(out: &mut Vec<u8>, lost_in: &Option<Name>) -> Result<(), AllocError>
    ensures { OnOk result (out.new.items ≡ out.old.items ++ lost_text lost_in.now) }
{
    match lost_in {
        None => Ok(()),
        Some(target) => push_lost_in(out, target),
    }
}

/// Appends the line of a process.
pub(crate) fn push_process(
    out: &mut Vec<u8>,
    columns: &[Padded],
    process: &ShownProcess,
) -> Result<(), AllocError>
    ensures { OnOk result (out.new.items ≡ out.old.items ++ process_line columns.now process.now) }
{
    for padded in columns {
        push_cell_of(out, process, *padded)?;
    }
    out.extend_from_slice(process.last.as_bytes())?;
    push_lost(out, &process.lost_in)?;
    out.push(b'\n')?;
    Ok(())
}
