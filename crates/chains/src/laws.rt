//! Laws of accepted lists.

ghost use Rattle.std.specs.Prelude.{◌≡◌, ◌+◌, ◌∷◌, ◌++◌, ℕ, List, Some, map, slice_get};
ghost use Rattle.report_line.specs.declared.report.NumberedReport.{NumberedReport};
ghost use Rattle.report_line.specs.declared.report.Report.{Report};
ghost use Rattle.report_line.specs.declared.report.Report.TheVariants.{Numbered};
ghost use Rattle.report_line.specs.declared.call.Call.{Call};
ghost use Rattle.report_line.specs.declared.reply.Reply.{Reply};
ghost use Rattle.report_line.specs.declared.marked.MarkedReport.{MarkedReport};
ghost use Rattle.chains.specs.Held.{Held};
ghost use Rattle.chains.specs.Admission.{IsAdmission, held_after};
ghost use Rattle.chains.specs.Processes.{Name, reports_by, reports_of, last_report};
ghost use Rattle.chains.specs.Elements.{elements_of, element_made, makers_of};
ghost use Rattle.chains.specs.Folded.{IsFit, IsFolded, IsReached};
ghost use Rattle.chains.specs.Turns.{IsTurn};
ghost use Rattle.chains.specs.Reachable.{IsReachable};
ghost use Rattle.chains.specs.Laws.{ArePartsOfAll, NeverFall};

/// What admission and settlements reach is folded.
pub fn reachable_lists_are_folded()
    ensures { (held : Held) → IsReachable held → IsReached held }
{}

/// What holds of each folded list: each report is fit behind those before it, the reports of a process are counted by their
/// numbers, and that of the last one is how many there are, the ids of live processes and of retirements that wait are parts of everything, and from one report of a process to
/// its next the events never fall.
pub fn folded_lists_are_lawful()
    ensures fit { (accepted before after : List Report) (r : Report) → IsFolded accepted → accepted ≡ before ++ r ∷ after → IsFit before r }
    ensures counted { (accepted : List Report) (p : Name) (k : ℕ) (r : NumberedReport) → IsFolded accepted → slice_get (reports_by p accepted) k ≡ Some (Numbered r) → r.number ≡ k + 1 }
    ensures numbered { (accepted : List Report) (p : Name) (r : NumberedReport) → IsFolded accepted → last_report p accepted ≡ Some (Numbered r) → r.number ≡ reports_of p accepted }
    ensures parts { (accepted : List Report) → IsFolded accepted → ArePartsOfAll accepted }
    ensures rising { (accepted : List Report) → IsFolded accepted → NeverFall accepted }
{}

/// The makers of a process's elements make just these, one each, in order.
pub fn makers_make_the_elements()
    ensures { (p : Name) (accepted : List Report) → map (element_made p) (makers_of p accepted) ≡ map (λ s. Some s) (elements_of p accepted) }
{}

/// From a folded list, whatever admission replies to a report, what is held then is folded; and so it is with each turn, whatever its
/// call and its fate. The front never falls below the number of reports.
pub fn replies_keep_lists_folded()
    ensures report { (held : Held) (m : MarkedReport) (answer : Reply) → IsReached held → IsAdmission held m answer → IsReached (held_after held m answer) }
    ensures turn { (held after : Held) (call : Call) (reply : Reply) → IsReached held → IsTurn held call reply after → IsReached after }
{}
