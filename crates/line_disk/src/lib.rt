//! A disk that may crash, as a trait; a disk in memory, which notes its calls; a disk over a file of the system; and a disk that
//! keeps nothing.
//!
//! Of a disk three things are seen: what a read gives, what a crash at each moment could leave, and how many calls failed. Code
//! over any disk is proved once, for crashes at every moment.
#![tactic(auto)]

mod change;
mod device;
mod disk;
mod fault;
mod file;
mod file_shadow;
mod image;
mod log;
mod memory;
mod null;
mod overwrite;
mod plan;
mod reach;
mod tape;
mod trouble;

pub use device::{Device, Modelled, modelled_leaves_most, the_premise_is_open};
pub use disk::Disk;
pub use fault::DiskFault;
pub use file::FileDisk;
pub use memory::MemoryDisk;
pub use null::NullDisk;
pub use plan::{Effect, Planned};
pub use reach::{Reach, WholeFile};
pub use trouble::{FileCall, FileTrouble, Unopened};
