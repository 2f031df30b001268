//! A request that a service ends.

use std::alloc::{AllocError, Global};
use std::sync::Arc;
use std::sync::atomic::{AtomicBool, Ordering};

/// One of several holders of a request that a service ends. It is made once, and not taken back.
#[derive(Drop)]
pub struct EndRequest(Arc<AtomicBool, Global>);

impl EndRequest {
    /// A request that is not made yet.
    pub fn new(alloc: Global) -> Result<EndRequest, AllocError> {
        let request = Arc::new(alloc, AtomicBool::new(false))?;
        Ok(EndRequest(request))
    }

    /// One holder more of the same request.
    pub fn share(&self) -> Result<EndRequest, AllocError> {
        let request = Arc::try_clone(&self.0)?;
        Ok(EndRequest(request))
    }

    /// Makes the request.
    pub fn make(&self) {
        self.0.store(true, Ordering::SeqCst);
    }

    /// Whether it was made.
    pub fn is_made(&self) -> bool {
        self.0.load(Ordering::SeqCst)
    }
}
