//! What each report is the first one of its process to know, by the stamps.

use crate::lane::counted;
use crate::reported::{Reported, Reports, Source};
use chains::{Chains, Element, Place, Position};
use event_tree::Events;
use report_line::{PackedReport, ReportView};
use std::alloc::{AllocError, Global};

/// What becomes of something that is known.
#[derive(Clone, Copy, PartialEq, Eq)]
enum Way {
    Open,
    /// It is known at first hand, as far as the reports tell.
    Direct,
    /// Who knows something else that is known here, knew it already.
    Indirect,
}

/// Something that is known for the first time.
#[derive(Clone, Copy)]
struct Fresh {
    source: Source,
    /// The place of the report that made the element.
    maker: u32,
    way: Way,
}

/// The events of a report.
fn events_of(report: &PackedReport) -> Option<&Events> {
    match report.view() {
        ReportView::Begin { .. } => None,
        ReportView::Numbered(fields) => Some(&fields.stamp.events),
    }
}

/// The element of this number, counted from 1, of a process.
fn element_of(chains: &Chains, source: Source) -> Option<Element<'_>> {
    if source.element == 0 || source.process >= chains.count() {
        return None;
    }
    chains.elements(source.process).get(source.element - 1)
}

/// Whether these events have something that came after this element.
fn is_after(chains: &Chains, events: &Events, source: Source) -> bool {
    match element_of(chains, source) {
        None => false,
        Some(element) => events.exceeds_on(element.events, element.id),
    }
}

/// Up to which element of a process these events have what came after it, where this is known up to a first one. In a lawful
/// history who knows what came after an element knows what came after each element before, so the first that fails is the end.
fn known_up_to(chains: &Chains, events: &Events, process: u32, first: u32) -> u32 {
    let mut known = first;
    for _ in 0..chains.front() {
        let next = Source {
            process,
            element: known.saturating_add(1),
        };
        if !is_after(chains, events, next) {
            return known;
        }
        known = next.element;
    }
    known
}

/// Learns of each process but this one what these events have, and answers what is new.
fn learn(
    reports: &mut Reports,
    chains: &Chains,
    events: &Events,
    process: u32,
) -> Result<Vec<Fresh>, AllocError> {
    let mut fresh = Vec::new(chains.alloc());
    for other in 0..chains.count() {
        if other == process {
            continue;
        }
        let had = known_of(reports, process, other);
        let element = known_up_to(chains, events, other, had);
        if element > had {
            let source = Source {
                process: other,
                element,
            };
            note_known(reports, process, source);
            fresh.push(Fresh {
                source,
                maker: reports.maker(source).unwrap_or(0),
                way: Way::Open,
            })?;
        }
    }
    Ok(fresh)
}

/// Up to which element of another process a process knows so far what came after it.
fn known_of(reports: &Reports, process: u32, other: u32) -> u32 {
    match reports.lines.get(process as usize) {
        None => 0,
        Some(line) => match line.known.get(other as usize) {
            None => 0,
            Some(known) => *known,
        },
    }
}

/// Notes that a process knows this.
fn note_known(reports: &mut Reports, process: u32, source: Source) {
    if let Some(line) = reports.lines.get_mut(process as usize)
        && let Some(known) = line.known.get_mut(source.process as usize)
    {
        *known = source.element;
    }
}

/// What this place knows of other processes is known through it, be it of those that are to be known at first hand so far, since
/// reports may be accepted in another order than they were made.
fn pass_over(fresh: &mut [Fresh], chains: &Chains, through: Place) {
    let Some(events) = chains.events_at(through) else {
        return;
    };
    for known in fresh.iter_mut() {
        if known.way != Way::Indirect
            && known.source.process != through.process
            && is_after(chains, events, known.source)
        {
            known.way = Way::Indirect;
        }
    }
}

/// Which of those whose way is open has the latest element.
fn latest_open(fresh: &[Fresh]) -> Option<usize> {
    let mut latest = None;
    let mut maker = 0;
    for i in 0..fresh.len() {
        if fresh[i].way == Way::Open && (latest.is_none() || fresh[i].maker > maker) {
            latest = Some(i);
            maker = fresh[i].maker;
        }
    }
    latest
}

/// Tells what is known at first hand from what those know who are known here.
fn part(fresh: &mut [Fresh], chains: &Chains) {
    for _ in 0..fresh.len() {
        let Some(at) = latest_open(fresh) else {
            return;
        };
        let Some(known) = fresh.get_mut(at) else {
            return;
        };
        known.way = Way::Direct;
        let through = Place {
            process: known.source.process,
            position: Position::At(known.source.element),
        };
        pass_over(fresh, chains, through);
    }
}

/// What of this is known at first hand.
fn direct(alloc: Global, fresh: &[Fresh]) -> Result<Vec<Source>, AllocError> {
    let mut sources = Vec::new(alloc);
    for known in fresh {
        if known.way == Way::Direct {
            sources.push(known.source)?;
        }
    }
    Ok(sources)
}

/// What a report knows first that it took from the process that it absorbed, and that process itself.
fn pass_over_absorbed(fresh: &mut [Fresh], chains: &Chains, absorbed: Option<u32>) {
    let Some(process) = absorbed else {
        return;
    };
    for known in fresh.iter_mut() {
        if known.source.process == process {
            known.way = Way::Indirect;
        }
    }
    let through = Place {
        process,
        position: Position::Retired,
    };
    pass_over(fresh, chains, through);
}

/// What of this a process learns at first hand, by a report that may have absorbed a process.
fn first_hand(
    chains: &Chains,
    fresh: &mut [Fresh],
    absorbed: Option<u32>,
) -> Result<Vec<Source>, AllocError> {
    pass_over_absorbed(fresh, chains, absorbed);
    part(fresh, chains);
    direct(chains.alloc(), fresh)
}

/// The process of a report learns of its events, and so does its child, if it has one: a child knows from its birth what its parent knew.
/// Answers what the process learns at first hand.
fn learn_both(
    reports: &mut Reports,
    chains: &Chains,
    events: &Events,
    report: Told,
) -> Result<Vec<Source>, AllocError> {
    if let Some(child) = report.child {
        let _known = learn(reports, chains, events, child)?;
    }
    let mut fresh = learn(reports, chains, events, report.process)?;
    first_hand(chains, &mut fresh, report.absorbed)
}

/// What the report at this place is the first one of its process to know.
fn sources_of(
    reports: &mut Reports,
    chains: &Chains,
    report: Told,
) -> Result<Vec<Source>, AllocError> {
    let events = match chains.report(report.index) {
        Some(packed) => events_of(packed),
        None => None,
    };
    match events {
        Some(events) => learn_both(reports, chains, events, report),
        None => Ok(Vec::new(chains.alloc())),
    }
}

/// What of a report its sources go by.
#[derive(Clone, Copy)]
struct Told {
    index: u32,
    process: u32,
    child: Option<u32>,
    absorbed: Option<u32>,
}

/// The same of a report.
fn looked_at(report: &Reported) -> Told {
    Told {
        index: report.index,
        process: report.process,
        child: report.child,
        absorbed: report.absorbed,
    }
}

/// Finds for each report what it is the first one of its process to know.
pub(crate) fn find_sources(reports: &mut Reports, chains: &Chains) -> Result<(), AllocError> {
    for place in 0..counted(reports.all.len()) {
        let Some(report) = reports.all.get(place as usize) else {
            return Ok(());
        };
        let report = looked_at(report);
        let sources = sources_of(reports, chains, report)?;
        if let Some(report) = reports.all.get_mut(place as usize) {
            report.sources = sources;
        }
    }
    Ok(())
}
