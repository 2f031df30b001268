//! Drawing a computation that really ran, by what was accepted of it.

use crate::ending::Ending;
use crate::knowledge::find_sources;
use crate::placing::place_all;
use crate::reason::chain_of;
use crate::reported::Reports;
use crate::scene::Scene;
use crate::sheet::{Subject, Why, picture};
use chains::{Chains, Failed, FailedFault};
use garbage_line::garbage;
use propagate::certificate;
use reasons::Certificate;
use report_line::{Name, Names};
use std::alloc::{AllocError, Global};

/// Whom a picture is asked for: the failed processes, and the one of which the reason chain is shown.
#[derive(Drop)]
struct Asked {
    failed: Failed,
    why: Option<u32>,
}

/// The process of which the reason chain is shown, if it is asked for.
fn why_in<'a>(line: &'a Certificate, why: Option<u32>) -> Option<Why<'a>> {
    let process = why?;
    match chain_of(line, process) {
        None => Some(Why {
            process,
            chain: &[],
        }),
        Some(chain) => Some(Why {
            process,
            chain: chain.as_slice(),
        }),
    }
}

/// The scene of what these chains have, by these reports of theirs.
fn scene_with(reports: &mut Reports, chains: &Chains) -> Result<Scene, AllocError> {
    find_sources(reports, chains)?;
    place_all(chains, reports)
}

/// The scene of what these chains have.
fn scene_of(chains: &Chains) -> Result<Scene, AllocError> {
    let mut reports = Reports::of(chains)?;
    scene_with(&mut reports, chains)
}

/// The picture of what these chains have, with these lines through it, and with the reason chain of a process if it is asked for.
fn picture_with(
    chains: &Chains,
    line: &Certificate,
    obsolete: &Certificate,
    why: Option<u32>,
) -> Result<Vec<u8>, AllocError> {
    let scene = scene_of(chains)?;
    picture(
        chains.alloc(),
        Subject {
            scene: &scene,
            line,
            obsolete,
            why: why_in(line, why),
        },
    )
}

/// The same, with what is obsolete still to be found.
fn picture_through(
    chains: &Chains,
    line: &Certificate,
    why: Option<u32>,
) -> Result<Vec<u8>, AllocError> {
    let obsolete = garbage(chains)?;
    picture_with(chains, line, &obsolete, why)
}

/// The picture of what these chains have, for whom it is asked.
fn picture_of(chains: &Chains, asked: &Asked) -> Result<Vec<u8>, AllocError> {
    let line = certificate(chains, &asked.failed)?;
    picture_through(chains, &line, asked.why)
}

/// The process of this name, if one is named.
fn number_of(chains: &Chains, why: Option<&Name>) -> Result<Option<u32>, Ending> {
    match why {
        None => Ok(None),
        Some(name) => match chains.number_of(name) {
            None => Err(Ending::Unknown(name.copy())),
            Some(process) => Ok(Some(process)),
        },
    }
}

/// Whom a picture is asked for by these names.
fn asked_by(chains: &Chains, failed: &Names, why: Option<&Name>) -> Result<Asked, Ending> {
    let failed = match Failed::from_names(chains, failed) {
        Ok(failed) => failed,
        Err(FailedFault::Unknown(name)) => return Err(Ending::Unknown(name)),
        Err(FailedFault::Memory) => return Err(Ending::Memory),
    };
    match number_of(chains, why) {
        Ok(why) => Ok(Asked { failed, why }),
        Err(ending) => Err(ending),
    }
}

/// The picture of a computation by what was accepted of it, where the processes of these names failed: what each process reported, what each
/// report is the first one of its process to know of others, the settlements, the recovery line, what it undoes, what is obsolete, and,
/// where a process is named behind `why`, its reason chain. No reports have no picture: it is empty, and done, whatever the names.
///
/// `Unknown` has the first name that no process has, of `failed` and then of `why`. `Memory` comes where an allocation is refused. It ends
/// in no other way than these and `Done`, and but for `Done` there is no picture.
pub fn draw_accepted(chains: &Chains, failed: &Names, why: Option<&Name>) -> (Vec<u8>, Ending) {
    let none = Vec::new(chains.alloc());
    if chains.is_empty() {
        return (none, Ending::Done);
    }
    match asked_by(chains, failed, why) {
        Ok(asked) => match picture_of(chains, &asked) {
            Ok(svg) => (svg, Ending::Done),
            Err(_) => (none, Ending::Memory),
        },
        Err(ending) => (none, ending),
    }
}
