//! Handing over reports, one by one.

ghost use Rattle.chains.specs.Held.{held_of};
ghost use Rattle.law_admission.specs.FirstRefusal.{IsHandedOver, AreAcceptedInOrder};

use chains::{Chains, No};
use report_line::PackedReport;

/// The first report that was refused: its place among those that were handed over, counted from 0, and why.
#[derive(Drop)]
pub struct Refused {
    pub place: usize,
    pub why: No,
}

/// Admits the reports in order, with the present epoch, up to the first that is refused. Where they come next of a lawful history behind the accepted
/// ones, and their targets are born, each is accepted, or one is refused for want of room or of memory and those before it are accepted.
pub fn hand_over(chains: &mut Chains, reports: &[PackedReport]) -> Result<(), Refused>
    ensures handed { IsHandedOver (held_of chains.old) reports.now result (held_of chains.new) }
    ensures lawful { AreAcceptedInOrder (held_of chains.old) reports.now result (held_of chains.new) }
{
    admit_each(chains, reports)
}

/// Admits each report, up to the first that is refused.
fn admit_each(chains: &mut Chains, reports: &[PackedReport]) -> Result<(), Refused>
    ensures { IsHandedOver (held_of chains.old) reports.now result (held_of chains.new) }
{
    for (place, report) in reports.iter().enumerate() {
        match chains.admit(report, chains.epoch()) {
            Ok(_) => {}
            Err(why) => return Err(Refused { place, why }),
        }
    }
    Ok(())
}
