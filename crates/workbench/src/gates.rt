//! Lines that are computed beside other threads.

pub mod gate;
pub mod lasting;
pub mod sessions;
mod streams;
pub mod tables;
pub mod workers;
