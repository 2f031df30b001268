//! Laws of record files and of turns.

ghost use Rattle.std.specs.Prelude.{◌≡◌, ◌≢◌};
ghost use Rattle.report_line.specs.declared.marked.MarkedReport.{MarkedReport};
ghost use Rattle.report_line.specs.declared.call.Call.TheVariants as calls;
ghost use Rattle.report_line.specs.declared.reply.Reply.{Reply};
ghost use Rattle.chains.specs.Held.{Held};
ghost use Rattle.chains.specs.Turns.{IsTurn};
ghost use Rattle.desk.specs.OneOpening.{FilesOfACallOpenAgain, FilesOpenAgain, FilesOpenToOne, RecordsOpenToOne};

/// Opening comes to one thing that is held: of the same records, and of the same file. A file that a crash leaves of a desk's disk opens
/// again, whichever program opens it.
pub fn files_open_to_one()
    ensures records { RecordsOpenToOne }
    ensures files { FilesOpenToOne }
    ensures again { FilesOpenAgain }
    ensures of_a_call { FilesOfACallOpenAgain }
{}

/// The turn of a report of another epoch than the present one changes nothing, whatever its reply and its fate.
pub fn other_epochs_change_nothing()
    ensures { (held after : Held) (m : MarkedReport) (reply : Reply) → m.epoch ≢ held.epoch → IsTurn held (calls.Report m) reply after → after ≡ held }
{}
