//! Drawing a script.

use crate::ending::Ending;
use crate::following::{Followed, follow};
use crate::sheet::{Subject, picture};
use chains::{Chains, Failed, FailedFault};
use garbage_line::garbage;
use propagate::certificate;
use report_line::{Name, Names};
use std::alloc::{AllocError, Global};

/// Why there is no picture.
enum Undrawn {
    Unknown(Name),
    Memory,
}

/// The picture of what was followed, where these processes failed.
fn picture_of(alloc: Global, followed: &Followed, failed: &Failed) -> Result<Vec<u8>, AllocError> {
    let chains: &Chains = &followed.chains;
    let line = certificate(chains, failed)?;
    let obsolete = garbage(chains)?;
    picture(
        alloc,
        Subject {
            scene: &followed.scripted.scene,
            line: &line,
            obsolete: &obsolete,
            why: None,
        },
    )
}

/// The picture of what was followed, where the processes of these names failed.
fn try_picture(alloc: Global, followed: &Followed, failed: &Names) -> Result<Vec<u8>, Undrawn> {
    let failed = match Failed::from_names(&followed.chains, failed) {
        Ok(failed) => failed,
        Err(FailedFault::Unknown(name)) => return Err(Undrawn::Unknown(name)),
        Err(FailedFault::Memory) => return Err(Undrawn::Memory),
    };
    match picture_of(alloc, followed, &failed) {
        Ok(svg) => Ok(svg),
        Err(_) => Err(Undrawn::Memory),
    }
}

/// The picture of what was followed to this ending, where the processes of these names failed, and how that ends.
fn drawn(alloc: Global, followed: &Followed, ending: Ending, failed: &Names) -> (Vec<u8>, Ending) {
    if matches!(ending, Ending::Memory) {
        return (Vec::new(alloc), ending);
    }
    match try_picture(alloc, followed, failed) {
        Ok(svg) => (svg, ending),
        Err(Undrawn::Unknown(name)) => (Vec::new(alloc), Ending::Unknown(name)),
        Err(Undrawn::Memory) => (Vec::new(alloc), Ending::Memory),
    }
}

/// The picture of a script, where the processes of these names failed: the steps that its world takes, its settlements with what
/// each undid, the recovery line through what is left, and what is obsolete. A script of which not even the first line is taken has no picture.
pub fn draw(alloc: Global, script: &[u8], failed: &Names) -> (Vec<u8>, Ending) {
    let (followed, ending) = follow(alloc, script);
    match &followed {
        Some(followed) => drawn(alloc, followed, ending, failed),
        None => (Vec::new(alloc), ending),
    }
}
