//! What a picture is drawn on.

use crate::pen::Pen;
use crate::telling::Said;
use std::alloc::{AllocError, Global};

/// What a legend explains.
#[derive(Clone, Copy)]
pub(crate) struct Shown {
    pub(crate) present: bool,
    pub(crate) passed: bool,
    pub(crate) event: bool,
    pub(crate) retirement: bool,
    pub(crate) message: bool,
    pub(crate) open: bool,
    pub(crate) again: bool,
    pub(crate) knowledge: bool,
    pub(crate) family: bool,
    pub(crate) failure: bool,
    pub(crate) settlement: bool,
    pub(crate) settled_line: bool,
    pub(crate) undone: bool,
    pub(crate) obsolete: bool,
    pub(crate) reason: bool,
}

/// What is drawn so far.
#[derive(Drop)]
pub(crate) struct Canvas {
    pub(crate) pen: Pen,
    /// What stands in it.
    pub(crate) shown: Shown,
    /// Where the words end that reach furthest to the right.
    pub(crate) right: u64,
    /// The names of messages to be sent again that found no room in it.
    pub(crate) without_room: Vec<Said>,
}

impl Canvas {
    /// Nothing is drawn.
    pub(crate) fn new(alloc: Global) -> Canvas {
        Canvas {
            pen: Pen::new(alloc),
            shown: Shown {
                present: false,
                passed: false,
                event: false,
                retirement: false,
                message: false,
                open: false,
                again: false,
                knowledge: false,
                family: false,
                failure: false,
                settlement: false,
                settled_line: false,
                undone: false,
                obsolete: false,
                reason: false,
            },
            right: 0,
            without_room: Vec::new(alloc),
        }
    }

    /// Notes that a name found no room.
    pub(crate) fn leave_out(&mut self, name: Said) {
        if self.without_room.extend_from_slice(&[name]).is_err() {
            self.pen.run_out();
        }
    }

    /// What is drawn, if memory sufficed for it.
    pub(crate) fn finish(self) -> Result<Vec<u8>, AllocError> {
        let Canvas {
            pen,
            shown: _,
            right: _,
            without_room,
        } = self;
        drop(without_room);
        pen.finish()
    }
}
