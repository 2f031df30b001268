//! Lines as a client sends them.

use super::answer::{Answer, put_by};
use client_link::Streams;
use desk::Desk;
use line_disk::MemoryDisk;
use report_line::{Call, MarkedReport, read_line, write_marked};
use session::{FlushPolicy, run};
use std::alloc::{AllocError, Global};
use std::io::BufWriter;

fn put_report(report: &MarkedReport, out: &mut Answer) {
    let line = write_marked(out.alloc(), report.epoch, &report.report);
    out.put_made(line);
}

fn put_read(call: &Call, out: &mut Answer) {
    match call {
        Call::Report(report) => put_report(report, out),
        _ => out.put(b"call"),
    }
}

/// Writes what a line is read as: a report as it is written again, another call by a word.
pub fn put_call(line: &str, out: &mut Answer) {
    put_by(read_line(out.alloc(), line.as_bytes()), out, put_read)
}

// A client that sends the line.
fn client_of(alloc: Global, line: &[u8]) -> Result<Streams<&[u8], Vec<u8>>, AllocError> {
    match BufWriter::new(alloc, Vec::new(alloc)) {
        Ok(written) => Ok(Streams::new(line, written)),
        Err(_) => Err(AllocError),
    }
}

// A session over the desk. It stands alone, since its clause is long.
fn serve(desk: &mut Desk<MemoryDisk>, client: &mut Streams<&[u8], Vec<u8>>) {
    let _end = run(desk, client, FlushPolicy::EachRead);
}

fn put_without_end(reply: &[u8], out: &mut Answer) {
    match reply.strip_suffix(b"\n") {
        Some(reply) => out.put(reply),
        None => out.put(reply),
    }
}

// Writes the reply of a session that has this line alone, without its LF.
fn put_reply(desk: &mut Desk<MemoryDisk>, line: &[u8], out: &mut Answer) {
    let Ok(mut client) = client_of(out.alloc(), line) else {
        out.run_out();
        return;
    };
    serve(desk, &mut client);
    let (_rest, written) = client.into_inner();
    put_without_end(written.get_ref(), out);
}

fn with_end(alloc: Global, line: &[u8]) -> Result<Vec<u8>, AllocError> {
    let mut text = Vec::from_slice(alloc, line)?;
    text.push(b'\n')?;
    Ok(text)
}

// The same of a line without its LF.
fn put_reply_to(desk: &mut Desk<MemoryDisk>, line: &[u8], out: &mut Answer) {
    match with_end(out.alloc(), line) {
        Ok(line) => put_reply(desk, &line, out),
        Err(_) => out.run_out(),
    }
}

fn is_call(alloc: Global, line: &[u8]) -> bool {
    read_line(alloc, line).is_ok()
}

/// Answers a line that is a call of a client by its reply; whether it is one.
pub fn answer(desk: &mut Desk<MemoryDisk>, line: &str, out: &mut Answer) -> bool {
    if !is_call(out.alloc(), line.as_bytes()) {
        return false;
    }
    put_reply_to(desk, line.as_bytes(), out);
    true
}
