//! What is shown of the processes that chains know.

ghost use Rattle.std.specs.Prelude.{◌≡◌, ◌<◌, ◌-◌, IfOk, Some, length, option_copied, slice_get};
ghost use Rattle.chains.specs.Processes.{Name as AnyName, known, is_absorbed};
ghost use Rattle.chains.specs.Elements.{name_of, makers_of};
ghost use Rattle.chains.specs.Held.{held_of};
ghost use Rattle.record_show.specs.Processes.{state_by, if_retired, lost_in, line_of, maker, shown_process, shown_processes, version_number, shown_file};
ghost use Rattle.record_show.specs.working.Processes.{IsShownBy};

use crate::depth::{shown_depth, shown_size};
use crate::shown::{ShownFile, ShownProcess, ShownState};
use chains::{Chains, State};
use earlier_file::FileFacts;
use id_tree::Id;
use report_line::{Name, Text, write_line};
use std::alloc::AllocError;

// Whether a process lives, by its registered id, which it has while it lives, and by whether its retirement was absorbed.
fn state_by(id: Option<&Id>, absorbed: bool) -> ShownState
    ensures { result ≡ state_by (option_copied id.entry) absorbed }
{
    match id {
        Some(_) => ShownState::Live,
        None => {
            if absorbed {
                ShownState::Absorbed
            } else {
                ShownState::Waiting
            }
        }
    }
}

// The line of the report that made element k of a process, counted from 1.
fn maker_line(chains: &Chains, process: u32, k: u32) -> Result<Text, AllocError>
    requires { process < length (known chains.now.accepted) }
    ensures { IfOk result (λ text. (p : AnyName) → name_of chains.now.accepted process ≡ Some p → text ≡ line_of (maker chains.now.accepted p k)) }
{
    match chains.maker(process, k.saturating_sub(1)) {
        None => Ok(Text::from_vec(Vec::new(chains.alloc()))),
        Some(report) => {
            let line = write_line(chains.alloc(), report)?;
            Ok(Text::from_vec(line))
        }
    }
}

// The process of this name, if it retired.
fn if_retired<'a>(chains: &Chains, name: &'a Name) -> Option<&'a Name>
    ensures { option_copied result ≡ if_retired chains.now.accepted name.now }
{
    chains.recall_lawful();
    let Some(number) = chains.number_of(name) else {
        return None;
    };
    match chains.target_of(number) {
        None => None,
        Some(_) => Some(name),
    }
}

// The process into which this one retired in vain, if it did.
fn lost_in(chains: &Chains, process: u32) -> Option<&Name>
    requires { process < length (known chains.now.accepted) }
    ensures { (p : AnyName) → name_of chains.now.accepted process ≡ Some p → option_copied result ≡ lost_in chains.now.accepted p }
{
    if chains.is_absorbed(process) {
        return None;
    }
    match chains.target_of(process) {
        None => None,
        Some(target) => if_retired(chains, target),
    }
}

// What is shown of a process of this name, where this is kept of it.
fn shown_by(
    name: &Name,
    state: &State<'_>,
    absorbed: bool,
    last: Text,
    lost_in: Option<&Name>,
) -> ShownProcess
    ensures { IsShownBy name.now state.now absorbed last (option_copied lost_in.entry) result }
{
    let lost_in = match lost_in {
        None => None,
        Some(target) => Some(target.copy()),
    };
    ShownProcess {
        name: name.copy(),
        state: state_by(state.id, absorbed),
        reports: state.reports,
        elements: state.elements,
        depth: shown_depth(state.id),
        size: shown_size(state.id),
        last,
        lost_in,
    }
}

// What is shown of a process by its number.
fn shown(chains: &Chains, process: u32) -> Result<ShownProcess, AllocError>
    requires { process < length (known chains.now.accepted) }
    ensures { IfOk result (λ shown. (p : AnyName) → name_of chains.now.accepted process ≡ Some p → shown ≡ shown_process chains.now.accepted p) }
{
    let name = chains.name_of(process);
    let Some(state) = chains.state(name) else {
        unreachable!();
    };
    let last = maker_line(chains, process, state.elements)?;
    let absorbed = chains.is_absorbed(process);
    Ok(shown_by(name, &state, absorbed, last, lost_in(chains, process)))
}

/// What is shown of each known process, in order of birth.
pub fn shown_processes(chains: &Chains) -> Result<Vec<ShownProcess>, AllocError>
    ensures { IfOk result (λ shown. shown.items ≡ shown_processes chains.now.accepted) }
{
    let mut processes = Vec::new(chains.alloc());
    for process in 0..chains.count() {
        processes.push(shown(chains, process)?)?;
    }
    Ok(processes)
}

// The version by its byte.
fn version_number(byte: u8) -> usize
    ensures { result ≡ version_number byte }
{
    if byte == b'1' { 1 } else { 2 }
}

/// What is shown of a file beside its processes, by what its bytes tell and by what its records say.
pub fn shown_file(chains: &Chains, facts: FileFacts) -> ShownFile
    ensures { result ≡ shown_file (held_of chains.now) facts }
{
    ShownFile {
        version: version_number(facts.version),
        records: facts.records,
        front: chains.front(),
        epoch: chains.epoch(),
        tail: facts.tail,
    }
}
