//! One process of a computation that is coordinated: its clock, its reports, and what it hands to others.
//!
//! A process stamps its steps by interval tree clocks (Almeida, Baquero, Fonte 2008). Each call is one step, and gives the line by which the
//! process reports it, if it does. What goes to another process is a message, the start of a child or a retirement; all of them, and the
//! process itself, have a text of one line. Where what is handed in was given out by these calls, the steps are those of a lawful history:
//! `law_process` has the law.
#![tactic(auto)]

ghost use Rattle.std.specs.Prelude.{◌≡◌};
ghost use Rattle.report_line.specs.Cuts.{Lacks};
ghost use Rattle.process.specs.declared.process.Process.{Process as AnyProcess};
ghost use Rattle.process.specs.declared.handed.Message.{Message as AnyMessage};
ghost use Rattle.process.specs.declared.handed.Start.{Start as AnyStart};
ghost use Rattle.process.specs.declared.handed.Retirement.{Retirement as AnyRetirement};
ghost use Rattle.process.specs.Shallow.{LeafIsAsDeep, StaysBehindAFork, StaysBehindAnAbsorption};
ghost use Rattle.process.specs.Texts.{IsProcess, IsMessage, IsStart, IsRetirement, process_text, message_text, start_text, retirement_text};

mod carving;
mod fault;
mod forking;
mod handed;
mod number;
mod process;
mod reading;
mod reporting;
mod text;

pub use fault::ProcessFault;
pub use handed::{Message, Retirement, Start};
pub use process::Process;

/// No text is that of two processes, of two messages, of two starts or of two retirements.
pub fn each_has_one_text()
    ensures process { (p q : AnyProcess) → IsProcess p → IsProcess q → process_text p ≡ process_text q → p ≡ q }
    ensures message { (m n : AnyMessage) → IsMessage m → IsMessage n → message_text m ≡ message_text n → m ≡ n }
    ensures start { (s t : AnyStart) → IsStart s → IsStart t → start_text s ≡ start_text t → s ≡ t }
    ensures retirement { (r s : AnyRetirement) → IsRetirement r → IsRetirement s → retirement_text r ≡ retirement_text s → r ≡ s }
{}

/// Each text is one line: no byte of it is an LF.
pub fn texts_are_lines()
    ensures process { (p : AnyProcess) → IsProcess p → Lacks 10 (process_text p) }
    ensures message { (m : AnyMessage) → IsMessage m → Lacks 10 (message_text m) }
    ensures start { (s : AnyStart) → IsStart s → Lacks 10 (start_text s) }
    ensures retirement { (r : AnyRetirement) → IsRetirement r → Lacks 10 (retirement_text r) }
{}

/// A process whose id is no deeper than the leaves that it gives to its children (`fork_small`) keeps it so, also where it absorbs such leaves.
pub fn ids_get_no_deeper()
    ensures leaf { LeafIsAsDeep }
    ensures fork { StaysBehindAFork }
    ensures absorption { StaysBehindAnAbsorption }
{}
