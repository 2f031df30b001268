//! What the program itself tells on standard error.

use clap::Error;
use clap::error::ErrorKind;
use line_disk::{FileCall, FileTrouble};
use std::fmt::{self, Display, Formatter, Write};
use std::io;

/// How many bytes of a fault line go out together.
pub(crate) const FAULT_LINE: usize = 256;

/// Where the program's own faults are told, and how much of them.
#[derive(Clone, Copy)]
pub(crate) struct Teller<'a> {
    pub(crate) rt: &'a HostRuntime,
    /// Whether a line behind that of a fault says why.
    pub(crate) explains: bool,
}

/// What was asked of the system, in front of the path of the file.
fn words_of(call: FileCall) -> &'static str {
    match call {
        FileCall::Open => "open",
        FileCall::Lock => "lock",
        FileCall::Measure => "read the length of",
        FileCall::Read => "read",
        FileCall::Write => "write",
        FileCall::Cut => "cut",
        FileCall::Sync => "sync",
        FileCall::SyncFolder => "sync the folder of",
    }
}

/// What was found of a file of which no call failed.
fn found_of(call: FileCall) -> &'static str {
    match call {
        FileCall::Open => "is not a regular file",
        FileCall::Lock => "is locked by another program",
        FileCall::Write | FileCall::Cut | FileCall::Sync => "was removed or shortened",
        FileCall::Measure | FileCall::Read | FileCall::SyncFolder => {
            "is not as it was left: another program or its device changed it"
        }
    }
}

/// Whether a character is written by its number: one that parts a line, moves the cursor, or turns or hides what stands beside it; and `\`.
fn is_hidden(c: char) -> bool {
    c.is_control()
        || c == '\\'
        || matches!(c, '\u{61c}' | '\u{200b}'..='\u{200f}' | '\u{2028}'..='\u{202e}' | '\u{2060}'..='\u{206f}' | '\u{feff}')
}

/// Writes a character, or JSON's `\u` and four digits for one that is hidden.
fn write_plain<W: Write>(f: &mut Formatter<W>, c: char) -> fmt::Result {
    if is_hidden(c) {
        write!(f, "\\u{:04x}", c as u32)
    } else {
        f.write_char(c)
    }
}

/// A name in a line, without characters that would hide what the line is.
#[derive(Clone, Copy)]
struct Plain<'a>(&'a str);

impl<'a> Display for Plain<'a> {
    fn fmt<W: Write>(&self, f: &mut Formatter<W>) -> fmt::Result {
        for c in self.0.chars() {
            write_plain(f, c)?;
        }
        Ok(())
    }
}

/// Lines of text, without characters that would hide what they are.
#[derive(Clone, Copy)]
struct PlainLines<'a>(&'a str);

impl<'a> Display for PlainLines<'a> {
    fn fmt<W: Write>(&self, f: &mut Formatter<W>) -> fmt::Result {
        for c in self.0.chars() {
            if c == '\n' {
                f.write_char(c)?;
            } else {
                write_plain(f, c)?;
            }
        }
        Ok(())
    }
}

/// What failed while a service goes on.
#[derive(Clone, Copy)]
pub(crate) enum Why {
    /// A call of its record file.
    File(FileTrouble),
    /// It takes no client.
    Client(io::Error),
}

impl Why {
    /// The same of a service over the file of this path.
    pub(crate) fn of_file(self, path: &str) -> Reason<'_> {
        match self {
            Why::File(trouble) => Reason::of_file(path, trouble),
            Why::Client(error) => Reason::Cannot {
                doing: "take",
                name: "a client",
                error,
            },
        }
    }
}

/// Why something failed, in words.
#[derive(Clone, Copy)]
pub(crate) enum Reason<'a> {
    /// The system refused to do this with the file or stream of this name.
    Cannot {
        doing: &'a str,
        name: &'a str,
        error: io::Error,
    },
    /// No call of the file of this name failed, and this was found of it.
    Found {
        name: &'a str,
        what: &'a str,
    },
}

impl<'a> Reason<'a> {
    /// Why a call of the file of this path failed.
    pub(crate) fn of_file(path: &'a str, trouble: FileTrouble) -> Reason<'a> {
        match trouble.error {
            Some(error) => Reason::Cannot {
                doing: words_of(trouble.call),
                name: path,
                error,
            },
            None => Reason::Found {
                name: path,
                what: found_of(trouble.call),
            },
        }
    }
}

impl<'a> Display for Reason<'a> {
    fn fmt<W: Write>(&self, f: &mut Formatter<W>) -> fmt::Result {
        match self {
            Reason::Cannot { doing, name, error } => {
                write!(f, "cannot {doing} {}: {error}", Plain(name))
            }
            Reason::Found { name, what } => write!(f, "{} {what}", Plain(name)),
        }
    }
}

impl<'a> Teller<'a> {
    /// Tells that memory ran out, or that a file or a stream failed, and answers the status for it.
    pub(crate) fn fault(self, cause: &str) -> u8 {
        let _told = eprintln!(self.rt; "recline: {cause}");
        3
    }

    /// Says why, where that is asked for.
    pub(crate) fn explain(self, reason: Reason<'_>) {
        if self.explains {
            let _told = eprintln!(self.rt; "recline: {reason}");
        }
    }

    /// Tells that a file or a stream failed, and why where that is asked for, and answers the status for it.
    pub(crate) fn failed(self, doing: &str, name: &str, error: &io::Error) -> u8 {
        let status = self.fault("device");
        self.explain(Reason::Cannot {
            doing,
            name,
            error: *error,
        });
        status
    }

    /// Says at which byte of the file of this path a damaged record begins.
    pub(crate) fn explain_record(self, path: &str, number: usize, offset: usize) {
        let name = Plain(path);
        let _told = eprintln!(self.rt;
            "recline: record {number} of {name} begins at byte {offset}"
        );
    }

    /// Says why this port of the machine itself is not listened on, where that is asked for.
    pub(crate) fn explain_port(self, port: u16, error: &io::Error) {
        if self.explains {
            let _told = eprintln!(self.rt; "recline: cannot listen on 127.0.0.1:{port}: {error}");
        }
    }

    /// Says why clients and the end of standard input cannot be waited for, where that is asked for.
    pub(crate) fn explain_poller(self, error: &io::Error) {
        if self.explains {
            let _told = eprintln!(self.rt;
                "recline: cannot wait for clients and for standard input: {error}"
            );
        }
    }

    /// Says that there are so many of at most so many.
    pub(crate) fn tell_near(self, what: &str, number: u32, most: u32) {
        let _told = eprintln!(self.rt; "recline: {what} {number} of {most}");
    }

    /// Says that so many bytes behind the last LF were not read.
    pub(crate) fn tell_rest(self, bytes: u64) {
        let _told = eprintln!(self.rt;
            "recline: the last {bytes} bytes have no LF and were not read"
        );
    }

    /// Says that what was read as a script is a record file.
    pub(crate) fn tell_records(self, path: &str) {
        let name = Plain(if path == "-" { "standard input" } else { path });
        let _told = eprintln!(self.rt; "recline: {name} is a record file (draw --records)");
    }

    /// Says that a certificate stands behind the word of its reply.
    pub(crate) fn tell_word_in_front(self) {
        let _told = eprintln!(self.rt; "recline: leave out \"LINE \" in front of the certificate");
    }

    /// Says which word of the command line is none that may stand there, and answers the status.
    pub(crate) fn misused(self, cause: &str) -> u8 {
        let _told = eprintln!(self.rt; "error: {cause}\n\nFor more information, try '--help'.");
        2
    }

    /// Says why the words cannot be read, and answers the status.
    pub(crate) fn unread(self, error: &io::Error) -> u8 {
        if !matches!(error.kind(), io::ErrorKind::InvalidData) {
            return self.fault("memory");
        }
        self.misused("a word of the command line is not UTF-8")
    }

    /// Shows the text for words that are no command, and answers the status.
    pub(crate) fn show(self, error: &Error) -> u8 {
        if matches!(error.kind(), ErrorKind::OutOfMemory) {
            return self.fault("memory");
        }
        if error.use_stderr() {
            return self.refuse(error);
        }
        match error.print(self.rt) {
            Ok(()) => 0,
            Err(_) => self.fault("device"),
        }
    }

    /// Shows why the words are no command, with the characters in them that would hide it written by their numbers, and answers the status.
    fn refuse(self, error: &Error) -> u8 {
        let Ok(text) = format!(in self.rt.alloc(); "{error}") else {
            return self.fault("memory");
        };
        match eprint!(self.rt; "{}", PlainLines(text.as_str())) {
            Ok(()) => 2,
            Err(_) => self.fault("device"),
        }
    }
}
