//! Laws of the reports of lawful histories.

ghost use Rattle.std.specs.Prelude.{◌≡◌, All};
ghost use Rattle.law_histories.specs.Example.{a};
ghost use Rattle.law_admission.specs.HandedOver.{IsReportable, IsTargetBorn, handed_over};
ghost use Rattle.law_admission.specs.Laws.{OnlyRoomIsTested, TurnsRefuseForRoomAlone, AllAreAcceptedInOrder};
ghost use Rattle.law_admission.specs.Example.{reported_steps, its_reports};

/// `BEGIN` by the root and then the reports of a lawful history, handed over in order, are accepted up to the first refusal,
/// which is for want of room or of memory, where no device fails.
pub fn lawful_reports_are_accepted()
    // No test but room applies to the next report.
    ensures tests { OnlyRoomIsTested }
    // What a turn of the next report replies.
    ensures turn { TurnsRefuseForRoomAlone }
    // The whole list, handed over one by one.
    ensures in_order { AllAreAcceptedInOrder }
{}

/// There is such a history with every kind of step, and it gives reports of every kind.
pub fn the_premises_are_possible()
    ensures premises { IsReportable a reported_steps }
    ensures reports { handed_over a reported_steps ≡ its_reports }
    ensures targets { All (IsTargetBorn a reported_steps) its_reports }
{}
