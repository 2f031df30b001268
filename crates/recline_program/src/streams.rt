//! The streams that commands read and write.

use command_line::Command;
use std::fs::File;
use std::io::{self, Chain, Read, Write};
use std::os::fd::AsFd;

/// The system's error for a descriptor that is closed.
const CLOSED: i32 = 9;

/// What stands in for a standard stream that is closed: a file that is at its end, and takes nothing.
fn stand_in<S: AsFd>(rt: &HostRuntime, stream: &S) -> io::Result<Option<File>> {
    match stream.as_fd().try_clone_to_owned() {
        Err(error) if error.raw_os_error() == Some(CLOSED) => match File::open(rt, "/dev/null") {
            Ok(file) => Ok(Some(file)),
            Err(error) => Err(error),
        },
        _ => Ok(None),
    }
}

/// What stands in for those of the standard streams that are closed. A file that is opened gets the least descriptor that is free, so
/// without them the record file would be a standard stream, and replies or faults would be written over its records.
#[derive(Drop)]
pub(crate) struct StandIns {
    input: Option<File>,
    output: Option<File>,
    errors: Option<File>,
}

/// The three, in the order of their descriptors.
pub(crate) fn stand_ins(rt: &HostRuntime) -> io::Result<StandIns> {
    Ok(StandIns {
        input: stand_in(rt, &rt.stdin())?,
        output: stand_in(rt, &rt.stdout())?,
        errors: stand_in(rt, &rt.stderr())?,
    })
}

/// A file that is opened when it is read first.
#[derive(Drop)]
pub(crate) struct LaterFile<'a> {
    rt: &'a HostRuntime,
    path: &'a str,
    file: Option<File>,
}

impl<'a> Read for LaterFile<'a> {
    fn read(&mut self, buf: &mut [u8]) -> io::Result<usize> {
        match &mut self.file {
            Some(file) => file.read(buf),
            None => {
                let mut file = File::open(self.rt, self.path)?;
                let result = file.read(buf);
                self.file = Some(file);
                result
            }
        }
    }
}

/// What a command reads, of one type, so that each command is there once.
#[derive(Drop)]
pub(crate) enum Input<'a, S: Read + Drop> {
    Standard(S),
    Nothing,
    File(LaterFile<'a>),
    Line(Chain<&'a [u8], &'a [u8]>),
}

impl<'a, S: Read + Drop> Input<'a, S> {
    /// What this command reads: standard input, for which a path may stand that is `-`, the file of a path, or one line.
    pub(crate) fn of_command(
        rt: &'a HostRuntime,
        standard: S,
        command: Command<'a>,
    ) -> Input<'a, S> {
        let path = match command {
            Command::Run { .. } | Command::Explain { line: None } => {
                return Input::Standard(standard);
            }
            Command::Serve { .. }
            | Command::Line { .. }
            | Command::Garbage { .. }
            | Command::Show { .. }
            | Command::Draw { records: true, .. } => return Input::Nothing,
            Command::Explain { line: Some(line) } => {
                return Input::Line(line.as_bytes().chain(b"\n".as_slice()));
            }
            Command::Check { certificate, .. } => certificate,
            Command::Drive { script, .. } => script,
            Command::Draw { path, .. } => path,
        };
        if path == "-" {
            return Input::Standard(standard);
        }
        Input::File(LaterFile {
            rt,
            path,
            file: None,
        })
    }

    /// The call that failed where a read of it did, in the words behind 'cannot': what was done, and the name of what is read.
    pub(crate) fn failed_call(&self) -> (&'static str, &'a str) {
        match self {
            Input::File(
                LaterFile {
                    path,
                    file: None,
                    ..
                },
            ) => ("open", path),
            Input::File(LaterFile { path, .. }) => ("read", path),
            Input::Standard(_) | Input::Nothing | Input::Line(_) => ("read", "standard input"),
        }
    }
}

impl<'a, S: Read + Drop> Read for Input<'a, S> {
    fn read(&mut self, buf: &mut [u8]) -> io::Result<usize> {
        match self {
            Input::Standard(stream) => stream.read(buf),
            Input::Nothing => Ok(0),
            Input::File(file) => file.read(buf),
            Input::Line(line) => line.read(buf),
        }
    }
}

/// A stream, and the error of its first call that failed.
#[derive(Drop)]
pub(crate) struct Kept<S: Drop> {
    pub(crate) stream: S,
    pub(crate) error: Option<io::Error>,
}

impl<S: Drop> Kept<S> {
    /// No call failed yet.
    pub(crate) fn new(stream: S) -> Kept<S> {
        Kept {
            stream,
            error: None,
        }
    }

    /// Keeps why a call failed, if it is the first that did. A call that was interrupted is made once more.
    fn keep(&mut self, error: io::Error) {
        if self.error.is_none() && !matches!(error.kind(), io::ErrorKind::Interrupted) {
            self.error = Some(error);
        }
    }
}

impl<S: Read + Drop> Read for Kept<S> {
    fn read(&mut self, buf: &mut [u8]) -> io::Result<usize> {
        match self.stream.read(buf) {
            Ok(n) => Ok(n),
            Err(error) => {
                self.keep(error);
                Err(error)
            }
        }
    }
}

impl<S: Write + Drop> Write for Kept<S> {
    fn write(&mut self, bytes: &[u8]) -> io::Result<usize> {
        match self.stream.write(bytes) {
            Ok(n) => Ok(n),
            Err(error) => {
                self.keep(error);
                Err(error)
            }
        }
    }

    fn flush(&mut self) -> io::Result<()> {
        match self.stream.flush() {
            Ok(()) => Ok(()),
            Err(error) => {
                self.keep(error);
                Err(error)
            }
        }
    }
}
