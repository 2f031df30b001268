//! What a service runs on.

use std::sync::Wait;
use std::thread::Threads;
use std::time::Clock;

/// What a service runs on: threads that wait for each other and for clients, by a clock.
pub trait ServiceRuntime: Threads + Wait + Clock + Clone + Drop + Send + Sync {}

impl<R: Threads + Wait + Clock + Clone + Drop + Send + Sync> ServiceRuntime for R {}
