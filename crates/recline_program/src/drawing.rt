//! Scripts that are driven or drawn, and records that are drawn.

use crate::files::records_of;
use crate::telling::Teller;
use client_link::Link;
use recline::{ScriptForm, draw_on, draw_records_on, drive_on};
use std::alloc::Global;

/// How a script is written, with comments or without.
fn form_of(comments: bool) -> ScriptForm {
    if comments {
        ScriptForm::Commented
    } else {
        ScriptForm::Plain
    }
}

/// What a picture is asked for by: whether the script has comments, the processes that failed, the one whose reasons are shown, and how many of
/// the first records count.
#[derive(Clone, Copy)]
pub(crate) struct Drawn<'a> {
    pub(crate) comments: bool,
    pub(crate) failed: Option<&'a str>,
    pub(crate) why: Option<&'a str>,
    pub(crate) at: Option<u32>,
}

/// Drives a world by the script that is read. It stands alone, since its clause is long.
fn drive_script<K: Link, F: Link>(
    alloc: Global,
    client: &mut K,
    faults: &mut F,
    form: ScriptForm,
) -> u8 {
    drive_on(alloc, client, faults, form)
}

/// Drives a world by the script that is read, which may have comments.
pub(crate) fn drive<K: Link, F: Link>(
    teller: Teller<'_>,
    comments: bool,
    client: &mut K,
    faults: &mut F,
) -> u8 {
    drive_script(teller.rt.alloc(), client, faults, form_of(comments))
}

/// Draws what a record file of these bytes keeps.
fn draw_bytes<K: Link, F: Link>(
    alloc: Global,
    bytes: &[u8],
    asked: Drawn<'_>,
    client: &mut K,
    faults: &mut F,
) -> u8 {
    draw_records_on(alloc, bytes, client, faults, asked.failed, asked.why)
}

/// Draws what the record file of this path keeps, or its first records.
fn draw_file<K: Link, F: Link>(
    teller: Teller<'_>,
    path: &str,
    asked: Drawn<'_>,
    client: &mut K,
    faults: &mut F,
) -> u8 {
    if asked.comments {
        return teller.misused("records have no --comments");
    }
    match records_of(teller, path, asked.at, faults) {
        Ok(bytes) => draw_bytes(teller.rt.alloc(), &bytes, asked, client, faults),
        Err(status) => status,
    }
}

/// Draws the script that is read, of which no reasons and no front are shown.
fn draw_script<K: Link, F: Link>(
    teller: Teller<'_>,
    asked: Drawn<'_>,
    client: &mut K,
    faults: &mut F,
) -> u8 {
    if asked.why.is_some() || asked.at.is_some() {
        return teller.misused("--why and --at want --records");
    }
    draw_on(
        teller.rt.alloc(),
        client,
        faults,
        form_of(asked.comments),
        asked.failed,
    )
}

/// Draws what the record file of this path keeps, where `records` says so, or else the script that is read.
pub(crate) fn draw<K: Link, F: Link>(
    teller: Teller<'_>,
    path: &str,
    records: bool,
    asked: Drawn<'_>,
    client: &mut K,
    faults: &mut F,
) -> u8 {
    if records {
        draw_file(teller, path, asked, client, faults)
    } else {
        draw_script(teller, asked, client, faults)
    }
}
