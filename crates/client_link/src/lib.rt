//! Clients, as streams of bytes: one to read and one to write, which tell what was read and written, and how many calls failed.
//!
//! A link may be a reader and a writer, a connection, or bytes in memory. It can be ended, and is silent from then on.
#![tactic(auto)]

mod connection;
mod end_request;
mod half;
mod leaving;
mod line_by_line;
mod link;
mod looks;
mod memory_link;
mod nonblocking;
mod nonblocking_client;
mod nonblocking_streams;
mod outbox;
mod patience;
mod patient_writer;
mod request;
mod screen;
mod service_link;
mod streams;

pub use connection::{ClientConnection, Connection, HangUp};
pub use end_request::EndRequest;
pub use leaving::Leaving;
pub use link::{Link, LinkFault, put, put_all};
pub use memory_link::MemoryLink;
pub use nonblocking::NonblockingLink;
pub use nonblocking_client::NonblockingClient;
pub use nonblocking_streams::NonblockingStreams;
pub use service_link::ServiceLink;
pub use streams::Streams;
