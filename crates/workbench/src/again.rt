//! Calls that are made once more if memory was missing for them: those of a coordinator, and those of a world. Each second try is reported
//! by a line `AGAIN` with what it is for; what is written besides does not show whether there was one.

pub mod failing;
pub mod over_disk;
pub mod passes;
pub mod served;
pub mod shared;
pub mod world;
