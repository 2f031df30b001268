//! The lines that a client sends, as calls, and the replies that it gets, as text.
//!
//! A name, a number and a stamp have one text each, and a call is its words parted by one space, so each line is that of
//! one call at most. What reading a line means is a relation over the spelling of calls. A stream is cut into its lines,
//! whatever pieces it comes in.
#![tactic(auto)]

mod call;
mod code;
mod fault;
mod feed;
mod marked;
mod name;
mod number;
mod packed;
mod pieces;
mod readers;
mod reading;
mod reply;
mod report;
mod row;
mod shared;
mod step;
mod text;
mod words;
mod writing;

pub use call::Call;
pub use code::Code;
pub use fault::LineFault;
pub use feed::{Feed, Lines, lines_of_a_stream, pieces_do_not_matter};
pub use marked::MarkedReport;
pub use name::{Name, is_name};
pub use number::{number_in, positive_in};
pub use packed::{NumberedView, PackedReport, ReportKindView, ReportView};
pub use pieces::{ReplyPiece, reply_pieces};
pub use readers::{read_names, read_stamp, take_name, wrong_part};
pub use reading::{a_line_has_one_call, read_line};
pub use reply::{Outcome, Reply};
pub use report::{Forked, NumberedReport, Report, ReportKind};
pub use row::{Names, NamesLeft};
pub use shared::Shared;
pub use step::{Step, StepKind};
pub use text::Text;
pub use words::{Words, cut_once};
pub use writing::{write_line, write_marked, write_reply, write_settle};
