//! Laws of the definitions of sessions.

ghost use Rattle.std.specs.Prelude.{◌≡◌, ◌≤◌, ◌++◌, ℕ, List, false, map};
ghost use Rattle.std.specs.List.{AllByRecursion};
ghost use Rattle.chains.specs.Processes.{Name as AnyName};
ghost use Rattle.chains.specs.Held.{Held};
ghost use Rattle.chains.specs.Reachable.{IsReachable};
ghost use Rattle.chains.specs.Folded.{IsReached};
ghost use Rattle.desk.specs.Lawful.{unstopped};
ghost use Rattle.session.specs.Answered.{BothHeadlinesAreOne, WhatIsAcceptedWasAnswered};
ghost use Rattle.session.specs.Exchanges.{Exchange, ReplayTo};
ghost use Rattle.session.specs.declared.kind.SessionEndKind.TheVariants as kinds;
ghost use Rattle.line_answer.specs.Questions.{IsChosenText};
ghost use Rattle.session.specs.Current.{EachFileTellsARun, EachLineIsRightNow, EachSharedLineIsRightNow, NoLineIsBelowGarbage, NoSharedLineIsBelowGarbage};
ghost use Rattle.session.specs.OneText.{IsUndisturbed};
ghost use Rattle.session.specs.Openings.{DesksAreOverFiles, EachFileHasATrace, NoLineIsBelowGarbageOverFiles, SessionsAreOverFiles, WhatIsHeldIsOpened};
ghost use Rattle.session.specs.SessionText.{ServedOver, IsSession, Mean, joined, session_text};
ghost use Rattle.session.specs.Turned.{AreExchanges, ShowsFailure};
ghost use Rattle.session.specs.TwoOpenings.{TwoOpeningsArePossible};

/// What is held behind exchanges that took turns is told by the exchanges alone: they come to it, and to nothing else; and at each
/// place among them something is held.
pub fn exchanges_tell_what_is_accepted()
    ensures comes { (held after : Held) (exchanges : List Exchange) → AreExchanges held exchanges after → ReplayTo held exchanges after }
    ensures one { (held after other : Held) (exchanges : List Exchange) → ReplayTo held exchanges after → ReplayTo held exchanges other → after ≡ other }
    ensures places { (held after : Held) (exchanges before later : List Exchange) → AreExchanges held exchanges after → exchanges ≡ before ++ later → (at : Held) × ReplayTo held before at }
{}

/// From a folded list, with an epoch for each report and a front that counts them, exchanges come to such a list; and from what admission
/// and settlements reach from nothing, to what they reach so. The front never falls.
pub fn exchanges_keep_lists()
    ensures folded { (held after : Held) (exchanges : List Exchange) → IsReached held → ReplayTo held exchanges after → IsReached after }
    ensures reachable { (held after : Held) (exchanges : List Exchange) → IsReachable (unstopped held) → ReplayTo held exchanges after → IsReachable (unstopped after) }
    ensures front { (held after : Held) (exchanges : List Exchange) → ReplayTo held exchanges after → held.front ≤ after.front }
{}

/// Among exchanges without a settlement, what is accepted is what was there before and the reports that were answered `OK`, in order; and each
/// `LINE` is right over what is held exactly if it is right over that list.
pub fn each_line_is_right_over_what_was_answered()
    ensures accepted { WhatIsAcceptedWasAnswered }
    ensures equivalent { BothHeadlinesAreOne }
{}

/// Over processes that obey the rules, with settlements among the exchanges or without, each LINE is right for the current history; and none
/// is below an earlier garbage line.
pub fn each_line_is_right_for_the_current_history()
    ensures now { EachLineIsRightNow }
    ensures garbage { NoLineIsBelowGarbage }
    // The same two where clients share a desk.
    ensures shared { EachSharedLineIsRightNow }
    ensures shared_garbage { NoSharedLineIsBelowGarbage }
    // What this starts from is there when a file is opened.
    ensures file { EachFileTellsARun }
{}

/// No line is below an earlier garbage line, also where they were asked for in different openings of a record file, with reports, settlements,
/// failures of the device and crashes in between.
pub fn no_line_is_below_garbage_over_files()
    ensures below { NoLineIsBelowGarbageOverFiles }
    // What is held at a question is what opening the records that there are by then comes to.
    ensures opened { WhatIsHeldIsOpened }
    // So it is at each place of a session, and behind turns that clients share.
    ensures sessions { SessionsAreOverFiles }
    ensures desks { DesksAreOverFiles }
    // And each file that is opened tells turns, between which processes may have made their steps.
    ensures told { EachFileHasATrace }
    // Two openings, written out, with a settlement in the second.
    ensures possible { TwoOpeningsArePossible }
{}

/// Where the store is stopped neither before the exchanges nor behind them, no device failed in between.
pub fn served_without_a_device()
    ensures { (held after : Held) (exchanges : List Exchange) → held.stopped ≡ false → after.stopped ≡ false → AreExchanges held exchanges after → AllByRecursion (λ e. ¬ ShowsFailure e) exchanges }
{}

/// The rounds choose one text for what is held and the names that are asked.
pub fn a_question_has_one_text()
    ensures { (held : Held) (names : List AnyName) (text other : List ℕ) → IsChosenText held names text → IsChosenText held names other → text ≡ other }
{}

/// Two runs from one accepted list over the same calls, for which memory sufficed and no device failed, have the same exchanges;
/// and so have two over the same lines. One over more lines begins with the same exchanges, and two sessions that read the same to
/// its end write the same text.
pub fn same_lines_have_one_text()
    ensures calls { (held : Held) (ours theirs : List Exchange) → IsUndisturbed held ours → IsUndisturbed held theirs → map (λ (e : Exchange). e.call) ours ≡ map (λ (e : Exchange). e.call) theirs → ours ≡ theirs }
    ensures lines { (held : Held) (lines : List (List ℕ)) (ours theirs : List Exchange) → IsUndisturbed held ours → IsUndisturbed held theirs → Mean lines ours → Mean lines theirs
        → (ours ≡ theirs) × (session_text ours ≡ session_text theirs) }
    // What is replied to a line is told by the lines before it.
    ensures more { (held : Held) (lines more : List (List ℕ)) (ours theirs : List Exchange) → IsUndisturbed held ours → IsUndisturbed held theirs → Mean lines ours → Mean (lines ++ more) theirs
        → (rest : List Exchange) × (theirs ≡ ours ++ rest) }
    // How the bytes come in pieces does not matter.
    ensures sessions { (held : Held) (over other : ServedOver) (pieces others : List (List ℕ)) (ours theirs : List Exchange) (text written : List ℕ) (n m : ℕ) → IsUndisturbed held ours → IsUndisturbed held theirs
        → IsSession over pieces kinds.End ours text n → IsSession other others kinds.End theirs written m → joined pieces ≡ joined others → text ≡ written }
{}
