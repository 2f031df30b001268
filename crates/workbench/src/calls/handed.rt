//! Reports that are handed over, one after the other.

use super::answer::Answer;
use chains::Chains;
use law_admission::{Refused, hand_over};
use report_line::{Call, PackedReport, read_line};
use std::alloc::{AllocError, Global};

// Adds the report of a line; whether the line is one.
fn add_report(reports: &mut Vec<PackedReport>, line: &str) -> Result<bool, AllocError> {
    let alloc = *reports.allocator();
    let Ok(Call::Report(report)) = read_line(alloc, line.as_bytes()) else {
        return Ok(false);
    };
    let copy = report.report.copy(alloc);
    drop(report);
    reports.push(copy?)?;
    Ok(true)
}

// Adds the reports of these lines, up to the first that is none.
fn add_reports(reports: &mut Vec<PackedReport>, text: &str) -> Result<(), AllocError> {
    for line in text.split(" / ") {
        if !add_report(reports, line)? {
            break;
        }
    }
    Ok(())
}

fn reports_of(alloc: Global, text: &str) -> Result<Vec<PackedReport>, AllocError> {
    let mut reports = Vec::new(alloc);
    add_reports(&mut reports, text)?;
    Ok(reports)
}

// Writes the place and the cause of a refusal.
fn put_refused(refused: &Refused, out: &mut Answer) {
    let place = refused.place;
    let code = refused.why.code;
    let text = format!(in out.alloc(); "{place} {code:?}");
    out.put_made(text);
}

// Hands over these reports.
fn put_outcome(chains: &mut Chains, reports: &[PackedReport], out: &mut Answer) {
    match hand_over(chains, reports) {
        Ok(()) => out.put_number(chains.front()),
        Err(refused) => put_refused(&refused, out),
    }
}

/// Hands over the reports of the lines, which are separated by ` / `, and writes the front, or which one was refused, from 0, and why.
pub fn put_handed(chains: &mut Chains, text: &str, out: &mut Answer) {
    match reports_of(chains.alloc(), text) {
        Ok(reports) => put_outcome(chains, &reports, out),
        Err(_) => out.run_out(),
    }
}
