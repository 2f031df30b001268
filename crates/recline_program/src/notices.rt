//! Notices of a service that lasts, which a thread of their own writes, so that no client waits for who reads them.

use crossbeam_channel::{Receiver, Sender};
use std::alloc::Global;
use std::io::{self, Write};
use std::sync::Wait;

/// So many notices wait to be written at most.
pub(crate) const MOST_NOTICES: usize = 64;

/// A writer that hands its bytes to another thread. Where too many wait there, or memory is wanting, they are left out.
#[derive(Drop)]
pub(crate) struct HandedOver<T: Wait + Drop> {
    threads: T,
    alloc: Global,
    notices: Sender<Vec<u8>>,
}

impl<T: Wait + Drop> HandedOver<T> {
    /// A writer whose other end is that of this channel.
    pub(crate) fn new(threads: T, alloc: Global, notices: Sender<Vec<u8>>) -> HandedOver<T> {
        HandedOver {
            threads,
            alloc,
            notices,
        }
    }
}

impl<T: Wait + Drop> Write for HandedOver<T> {
    fn write(&mut self, buf: &[u8]) -> io::Result<usize> {
        let mut notice = Vec::new(self.alloc);
        if notice.extend_from_slice(buf).is_ok() {
            let _left_out = self.notices.try_send(&self.threads, notice);
        }
        Ok(buf.len())
    }

    fn flush(&mut self) -> io::Result<()> {
        Ok(())
    }
}

/// Writes what is handed over, as it comes, until nobody is left to do so.
pub(crate) fn write_notices<W: Write, R: Wait>(
    rt: &R,
    notices: &Receiver<Vec<u8>>,
    errors: &mut W,
) {
    for _ in rt.forever() {
        let Ok(notice) = notices.recv(rt) else {
            return;
        };
        let _written = errors.write_all(notice.as_slice());
    }
}
