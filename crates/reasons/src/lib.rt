//! Certificates: recovery lines with reason chains, their text as JSON, and reading it.
#![tactic(auto)]

mod certificate;
mod fault;
mod reading;
mod rereading;
mod shape;
mod text;

pub use certificate::{Certificate, Numbers, Reasons};
pub use fault::CertificateFault;
pub use reading::from_json;
pub use rereading::written_certificates_are_read;
pub use text::to_json;
