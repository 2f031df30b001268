//! A client's socket as a link that need not wait.

ghost use Rattle.std.specs.Prelude.{◌≡◌, IfOk, None, [], ⊤};

use crate::half::Half;
use crate::leaving::Leaving;
use crate::link::Link;
use crate::nonblocking_streams::NonblockingStreams;
use crate::screen::Screened;
use crate::service_link::ServiceLink;
use std::alloc::Global;
use std::io;
use std::net::TcpStream;
use std::sync::Arc;

/// The link of a client that need not wait. Of a browser nothing is read.
pub type NonblockingClient = NonblockingStreams<Screened<Half>, Half>;

impl NonblockingStreams<Screened<Half>, Half> {
    /// The link over this stream, none of whose calls waits from then on. What is handed on is sent at once.
    pub fn of_client(alloc: Global, stream: TcpStream) -> io::Result<NonblockingClient>
        ensures { IfOk result (λ link. ⟦<NonblockingClient as Link>⟧.told link ≡ record { left = None; held = None; waiting = []; reads = 0; failures = 0; stalls = 0; ended = None }) }
    {
        stream.set_nonblocking(true)?;
        // If the connection is gone by now, its reads and writes report it.
        let _sent_at_once = stream.set_nodelay(true);
        let stream = Arc::new(alloc, stream)?;
        let reader = Half(Arc::try_clone(&stream)?);
        Ok(NonblockingStreams::new(alloc, Screened::new(reader), Half(stream)))
    }
}

impl ServiceLink for NonblockingStreams<Screened<Half>, Half> {
    ghost leaves_nothing = { λ link. ⊤ };

    fn let_go(self) -> Option<Leaving> {
        let (_reader, writer) = self.into_inner();
        Leaving::new(writer)
    }
}
