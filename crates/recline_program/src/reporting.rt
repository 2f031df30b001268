//! Why a service fails, told while it goes on: what fails is handed to a thread of its own, so that no client waits for standard error.

ghost use Rattle.line_disk.specs.Device.{KeepsModel};
ghost use Rattle.line_disk.specs.File.{file_calls, file_failures, file_first, file_view};
ghost use Rattle.line_disk.specs.FileReadIsLeft.{read_left};

use crate::telling::Why;
use crossbeam_channel::{Receiver, Sender};
use line_disk::{Device, Disk, DiskFault, FileDisk};
use std::alloc::Global;
use std::io::{self, ErrorKind, Write};
use std::net::{OpenListener, SocketAddr, TcpListener, TcpStream};
use std::os::fd::{AsRawFd, RawFd};
use std::sync::Wait;
use std::sync::atomic::{AtomicBool, Ordering};
use std::time::{Clock, Duration};

/// Hands over why something failed: there is room for one of each reporter.
#[derive(Drop)]
pub(crate) struct Reporter<T: Wait + Drop> {
    threads: T,
    whys: Sender<Why>,
}

impl<T: Wait + Drop> Reporter<T> {
    /// A reporter whose other end is that of this channel.
    pub(crate) fn new(threads: T, whys: Sender<Why>) -> Reporter<T> {
        Reporter { threads, whys }
    }

    /// Hands it over where there is room, so that nobody is waited for.
    fn report(&self, why: Why) {
        let _handed = self.whys.try_send(&self.threads, why);
    }
}

/// The disk over a file, of which the first call that fails is reported, where there is a reporter.
#[derive(Drop)]
pub(crate) struct ReportedDisk<P: Device, T: Wait + Drop> {
    pub(crate) disk: FileDisk<P>,
    reporter: Option<Reporter<T>>,
}

impl<P: Device, T: Wait + Drop> ReportedDisk<P, T> {
    /// The disk with its reporter, if there is one.
    pub(crate) fn new(disk: FileDisk<P>, reporter: Option<Reporter<T>>) -> ReportedDisk<P, T> {
        ReportedDisk { disk, reporter }
    }
}

/// Reports the first call of the disk that failed, where one did and was not reported.
fn report_first<P: Device, T: Wait + Drop>(disk: &FileDisk<P>, reporter: &mut Option<Reporter<T>>) {
    let Some(trouble) = disk.trouble() else {
        return;
    };
    if let Some(reporter) = reporter.take() {
        reporter.report(Why::File(trouble));
    }
}

impl<P: Device, T: Wait + Drop> Disk for ReportedDisk<P, T> {
    ghost view = { λ disk. file_view P.leaves P.unread disk.disk };

    ghost keeps = { λ disk. KeepsModel P.leaves };

    ghost failed = { λ disk. file_failures disk.disk };

    ghost read_is_left = { λ disk keeps. read_left P.leaves (file_first P.unread disk.disk) (file_calls disk.disk) keeps };

    fn failures(&self) -> u64 {
        self.disk.failures()
    }

    fn len(&mut self) -> Result<usize, DiskFault> {
        let length = self.disk.len();
        report_first(&self.disk, &mut self.reporter);
        length
    }

    fn read_at(&mut self, alloc: Global, at: usize, n: usize) -> Result<Vec<u8>, DiskFault> {
        let bytes = self.disk.read_at(alloc, at, n);
        report_first(&self.disk, &mut self.reporter);
        bytes
    }

    fn write_at(&mut self, at: usize, bytes: &[u8]) -> Result<(), DiskFault> {
        let written = self.disk.write_at(at, bytes);
        report_first(&self.disk, &mut self.reporter);
        written
    }

    fn cut(&mut self, len: usize) -> Result<(), DiskFault> {
        let cut = self.disk.cut(len);
        report_first(&self.disk, &mut self.reporter);
        cut
    }

    fn sync(&mut self) -> Result<(), DiskFault> {
        let synced = self.disk.sync();
        report_first(&self.disk, &mut self.reporter);
        synced
    }
}

/// A listener that reports why it takes no client, where there is a reporter: once until it takes one again.
#[derive(Drop)]
pub(crate) struct ReportedListener<T: Wait + Drop> {
    listener: TcpListener,
    reporter: Option<Reporter<T>>,
    is_reported: AtomicBool,
}

impl<T: Wait + Drop> ReportedListener<T> {
    /// The listener with its reporter, if there is one.
    pub(crate) fn new(listener: TcpListener, reporter: Option<Reporter<T>>) -> ReportedListener<T> {
        ReportedListener {
            listener,
            reporter,
            is_reported: AtomicBool::new(false),
        }
    }

    /// Reports this error, if it is not one that the service passes over.
    fn report(&self, error: &io::Error) {
        let Some(reporter) = &self.reporter else {
            return;
        };
        match error.kind() {
            ErrorKind::ConnectionAborted | ErrorKind::Interrupted | ErrorKind::WouldBlock => {}
            _ => if !self.is_reported.swap(true, Ordering::SeqCst) {
                reporter.report(Why::Client(*error))
            },
        }
    }
}

impl<T: Wait + Drop> OpenListener for ReportedListener<T> {
    type Stream = TcpStream;

    fn accept(&self) -> io::Result<(TcpStream, SocketAddr)> {
        let accepted = self.listener.accept();
        match &accepted {
            Ok(_) => self.is_reported.store(false, Ordering::SeqCst),
            Err(error) => self.report(error),
        }
        accepted
    }

    fn local_addr(&self) -> io::Result<SocketAddr> {
        self.listener.local_addr()
    }

    fn set_nonblocking(&self, nonblocking: bool) -> io::Result<()> {
        self.listener.set_nonblocking(nonblocking)
    }
}

impl<T: Wait + Drop> AsRawFd for ReportedListener<T> {
    fn as_raw_fd(&self) -> RawFd {
        self.listener.as_raw_fd()
    }
}

/// Tells why something failed, as often as that is handed over, until nobody is left to do so. Each is told a second later, or when the service
/// ends. The text is one that has room already, since memory may be what is wanting.
pub(crate) fn tell_whys<W: Write, R: Wait + Clock>(
    rt: &R,
    whys: &Receiver<Why>,
    going: &Receiver<()>,
    path: &str,
    line: &mut String,
    errors: &mut W,
) {
    for _ in rt.forever() {
        let Ok(why) = whys.recv(rt) else {
            return;
        };
        let _ended = going.recv_timeout(rt, Duration::from_secs(1));
        line.clear();
        if writeln!(line, "recline: {}", why.of_file(path)).is_ok() {
            let _told = errors.write_all(line.as_bytes());
        }
    }
}
