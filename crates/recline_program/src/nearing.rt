//! What a session over a record file tells when the file is nearly full.

use crate::telling::Teller;
use recline::{MOST_LINES, MOST_PROCESSES, Watch, is_near};
use std::sync::atomic::{AtomicBool, Ordering};

/// Tells once each that the front and the processes come near their limits.
#[derive(Drop)]
pub(crate) struct Nearness<'a> {
    teller: Teller<'a>,
    /// Whether the front was told.
    front: AtomicBool,
    /// Whether the number of processes was.
    processes: AtomicBool,
}

impl<'a> Nearness<'a> {
    /// Nothing was told yet.
    pub(crate) fn new(teller: Teller<'a>) -> Nearness<'a> {
        Nearness {
            teller,
            front: AtomicBool::new(false),
            processes: AtomicBool::new(false),
        }
    }
}

impl<'a> Watch for Nearness<'a> {
    fn after_line(&self, front: u32, processes: u32) {
        if is_near(MOST_LINES, front) && !self.front.swap(true, Ordering::SeqCst) {
            self.teller.tell_near("front", front, MOST_LINES);
        }
        if is_near(MOST_PROCESSES, processes) && !self.processes.swap(true, Ordering::SeqCst) {
            self.teller
                .tell_near("processes", processes, MOST_PROCESSES);
        }
    }
}
