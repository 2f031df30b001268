//! Why a text gave no certificate.

ghost use Rattle.std.specs.Prelude.{◌≡◌};
ghost use Rattle.reasons.specs.declared.fault.CertificateFault.TheVariants.{Memory};

use std::alloc::{AllocError, AllocFailed};
use thiserror::Error;

/// Why a text is read as no certificate. Where several causes apply, the first of this list is answered; `Memory` may come
/// in place of any.
#[derive(Debug, Drop, Error)]
pub enum CertificateFault {
    /// It is no text that JSON's reader takes.
    #[error("not JSON")]
    NotJson,
    /// It is JSON, but not in the shape of a certificate, or has a number out of range.
    #[error("not in the shape of a certificate")]
    Shape,
    /// No process has this name, the first such in the order failed, line, reasons. It is as it stands, also where it is no
    /// name at all.
    #[error("unknown name {0}")]
    Unknown(String),
    /// A growth was refused.
    #[error("out of memory")]
    Memory,
}

impl From<AllocError> for CertificateFault {
    ghost from_gives = { λ _ e. e ≡ Memory };

    fn from(_error: AllocError) -> CertificateFault {
        CertificateFault::Memory
    }
}

impl<T: Drop> From<AllocFailed<T>> for CertificateFault {
    ghost from_gives = { λ _ e. e ≡ Memory };

    fn from(_error: AllocFailed<T>) -> CertificateFault {
        CertificateFault::Memory
    }
}
