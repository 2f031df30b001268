//! How a service takes leave of its clients.

use crate::room::{Lodger, Lodging};
use client_link::ServiceLink;
use line_disk::Disk;
use session::Rest;
use std::sync::Wait;
use std::thread::sleep;
use std::time::{Clock, Duration};

/// So many times it is looked whether clients have gone.
const MOST_LOOKS: u32 = 50;

/// So many milliseconds lie between two looks.
const BETWEEN: u64 = 20;

/// One look at a client: a reply that waits is handed on as far as that goes, then nothing more is sent, and what still comes is read away.
fn look<D: Disk, K: ServiceLink + Drop>(
    lodging: Lodging<D, K>,
    buf: &mut [u8; 8192],
) -> Lodging<D, K> {
    match lodging {
        Lodging::Free => Lodging::Free,
        Lodging::Guest(mut lodger) => {
            if let Rest::Write | Rest::Due | Rest::Renewal = lodger.guest.rest() {
                lodger.guest.receive(buf);
            }
            if let Rest::Write = lodger.guest.rest() {
                return Lodging::Guest(lodger);
            }
            let Lodger { guest, since, .. } = lodger;
            match guest.let_go() {
                Some(leaving) => Lodging::Leaving(leaving, since),
                None => Lodging::Free,
            }
        }
        Lodging::Leaving(mut leaving, since) => {
            if leaving.read_away(buf) {
                Lodging::Leaving(leaving, since)
            } else {
                Lodging::Free
            }
        }
    }
}

/// One look at each client. Answers whether some are still there.
fn look_at_all<D: Disk, K: ServiceLink + Drop>(
    lodgings: &mut Vec<Lodging<D, K>>,
    buf: &mut [u8; 8192],
) -> bool {
    let mut are_there = false;
    for lodging in lodgings.iter_mut() {
        let taken = std::mem::replace(lodging, Lodging::Free);
        *lodging = look(taken, buf);
        are_there |= !matches!(lodging, Lodging::Free);
    }
    are_there
}

/// Takes leave of the clients: each gets what waits of its last reply, and then its end. Who does not go within a second is left.
pub(crate) fn take_leave<D: Disk, K: ServiceLink + Drop, R: Wait + Clock>(
    rt: &R,
    lodgings: Vec<Lodging<D, K>>,
) {
    let mut lodgings = lodgings;
    let mut buf = [0u8; 8192];
    for _ in 0..MOST_LOOKS {
        if !look_at_all(&mut lodgings, &mut buf) {
            return;
        }
        sleep(rt, Duration::from_millis(BETWEEN));
    }
}
