//! Calls on certificates.

use super::answer::{Answer, Written, put_by};
use super::processes::failed_of;
use chains::{Chains, Failed};
use propagate::certificate;
use reason_check::{Verdict, check};
use reasons::{Certificate, CertificateFault, from_json, to_json};
use std::alloc::AllocError;
use std::fmt;

/// Why a text is no certificate, shown by the fault's name.
#[derive(Drop)]
struct TextFault(CertificateFault);

impl fmt::Debug for TextFault {
    fn fmt<W: fmt::Write>(&self, f: &mut fmt::Formatter<W>) -> fmt::Result {
        match &self.0 {
            CertificateFault::Unknown(name) => write!(f, "Unknown({name})"),
            fault => write!(f, "{fault:?}"),
        }
    }
}

fn certificate_of(chains: &Chains, text: &str) -> Result<Certificate, TextFault> {
    from_json(chains, text.as_bytes()).map_err(TextFault)
}

fn put_text(chains: &Chains, certificate: &Certificate, out: &mut Answer) {
    let text = to_json(chains, certificate);
    out.put_made(text);
}

// The certificate of the line, if these failed.
fn put_found(chains: &Chains, failed: &Failed, out: &mut Answer) {
    match certificate(chains, failed) {
        Ok(found) => put_text(chains, &found, out),
        Err(_) => out.run_out(),
    }
}

impl Written for Verdict {
    fn append_to(&self, text: &mut Vec<u8>) -> Result<(), AllocError> {
        self.write_to(text)
    }
}

/// Answers a call on certificates, by its word and the text behind it; whether it is one.
pub fn answer(chains: &Chains, word: &str, text: &str, out: &mut Answer) -> bool {
    match word {
        "certificate" => put_by(failed_of(chains, text), out, |failed, out| {
            put_found(chains, failed, out)
        }),
        "read" => put_by(certificate_of(chains, text), out, |_, out| out.put(b"READ")),
        // What is read, written again.
        "write" => put_by(certificate_of(chains, text), out, |read, out| {
            put_text(chains, read, out)
        }),
        // The verdict on it.
        "check" => put_by(certificate_of(chains, text), out, |read, out| {
            out.put_value(&check(chains, read))
        }),
        _ => return false,
    }
    true
}
