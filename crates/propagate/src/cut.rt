//! The greatest stamp-consistent cut, and its certificate.

ghost use Rattle.std.specs.Prelude.{◌≡◌, ◌<◌, ◌≤◌, ◌+◌, ◌-◌, ◌^◌, ℕ, List, IfOk, IfSome, length, slice_index, sum};
ghost use Rattle.report_line.specs.declared.report.Report.{Report};
ghost use Rattle.chains.specs.Processes.{known};
ghost use Rattle.chains.specs.Positions.{last_rank};
ghost use Rattle.chains.specs.Folded.{IsFolded};
ghost use Rattle.chains.specs.declared.position.Place.{Place as AnyPlace};
ghost use Rattle.reasons.specs.declared.certificate.Certificate.{Certificate as AnyCertificate};
ghost use Rattle.chains.specs.Held.{Held, held_of};
ghost use Rattle.knows_row.specs.Looks.{last_ranks};
ghost use Rattle.knows_row.specs.Needs.{IsTableOf};
ghost use Rattle.reasons.specs.Certificates.{Certifies, positions_of};
ghost use Rattle.law_lines.specs.Headline.{IsLineOfHistories};
ghost use Rattle.propagate.specs.Greatest.{IsGreatestCut};
ghost use Rattle.propagate.specs.working.Ranks.{AreNextRanks, RanksAfter};
ghost use Rattle.propagate.specs.working.Stages.{IsStageFrom, AreThere, AreChosenBy, chains_at, needed_chains};
ghost use Rattle.propagate.specs.working.Reached.{IsReached};
ghost use Rattle.propagate.specs.Choice.{AreChosen, IsChosenCertificate};
ghost use Rattle.propagate.specs.Cuts.{IsGreatestLine, IsCutFor, IsCertificateFor};

use crate::arena::Arena;
use crate::places::{last_surviving_ranks, line_at};
use crate::rounds::{Stage, first_stage, round};
use chains::{Chains, Failed, Line};
use knows_row::Needs;
use reasons::{Certificate, Numbers, Reasons};
use std::alloc::AllocError;

/// The greatest stamp-consistent cut, a reason chain for each process below its last surviving position, and the number of
/// rounds up to the first that changes nothing, that one counted.
#[derive(Drop)]
pub struct Cut {
    pub line: Line,
    pub reasons: Reasons,
    pub rounds: u32,
}

/// The chains of the processes below their last surviving ranks, in order of birth.
fn needed_reasons(
    chains: &Chains,
    arena: &Arena,
    surviving_ranks: &[u32],
    stage: &Stage,
) -> Result<Reasons, AllocError>
    requires surviving_ranks { length surviving_ranks.now ≡ length stage.now.cut.items }
    requires chain_ends { length stage.now.chain_ends.items ≡ length stage.now.cut.items }
    requires there { AreThere surviving_ranks.now stage.now.cut.items stage.now.chain_ends.items arena.now }
    ensures { IfOk result (λ r. r ≡ needed_chains surviving_ranks.now stage.now.cut.items (chains_at arena.now stage.now.chain_ends.items)) }
{
    let mut reasons = Reasons::new(chains.alloc());
    for i in 0..surviving_ranks.len() {
        if stage.cut[i] < surviving_ranks[i] {
            let chain = arena.chain(stage.chain_ends[i])?;
            reasons.push(chain)?;
        }
    }
    Ok(reasons)
}

/// The cut that the rounds end at, with how many they are.
#[derive(Drop)]
struct LastStage {
    stage: Stage,
    arena: Arena,
    rounds: u32,
}

/// Makes rounds up to the first that changes nothing, the first one by the table of needs, if there is one.
fn last_stage(
    chains: &Chains,
    needs: Option<&Needs<'_>>,
    surviving_ranks: &[u32],
) -> Result<LastStage, AllocError>
    requires complete { length surviving_ranks.now ≡ length (known chains.now.accepted) }
    requires within { (p : ℕ) → p < length surviving_ranks.now → slice_index surviving_ranks.now p ≤ last_rank chains.now.accepted p }
    requires at_most { sum surviving_ranks.now < 2 ^ 32 - 1 }
    requires table { IfSome needs (λ n. IsTableOf chains.now.accepted n.now × (surviving_ranks.now ≡ last_ranks chains.now.accepted)) }
    ensures stands { IfOk result (λ s. IsStageFrom chains.now.accepted surviving_ranks.now s.stage s.arena) }
    ensures rounds { IfOk result (λ s. (t : ℕ) × (s.rounds ≡ t + 1) × RanksAfter chains.now.accepted surviving_ranks.now t s.stage.cut.items
        × AreChosenBy chains.now.accepted surviving_ranks.now t s.stage.cut.items s.stage.chain_ends.items s.arena) }
    ensures still { IfOk result (λ s. AreNextRanks chains.now.accepted s.stage.cut.items s.stage.cut.items) }
    ensures at_most { IfOk result (λ s. s.rounds ≤ sum surviving_ranks.now + 1) }
{
    let mut arena = Arena::new(chains.alloc());
    let mut stage = first_stage(chains, surviving_ranks)?;
    let mut rounds = 1;
    let mut table = needs;
    loop {
        let next = round(chains, table, &mut arena, surviving_ranks, &stage)?;
        if next.fell.is_empty() {
            return Ok(LastStage {
                stage: next,
                arena,
                rounds,
            });
        }
        stage = next;
        table = None;
        rounds += 1;
    }
}

/// The table of needs, where all processes are at their last places.
fn at_last<'a, 'b>(needs: Option<&'a Needs<'b>>, surviving_ranks: &[u32]) -> Option<&'a Needs<'b>>
    ensures { (accepted : List Report) → IfSome needs.entry (λ n. IsTableOf accepted n.now) → IfSome result (λ n. IsTableOf accepted n.now × (surviving_ranks.now ≡ last_ranks accepted)) }
{
    match needs {
        Some(table) if table.last_ranks() == surviving_ranks => Some(table),
        _ => None,
    }
}

/// The last surviving ranks, the cut that the rounds from there end at, and its line.
#[derive(Drop)]
struct Reached {
    surviving_ranks: Vec<u32>,
    last: LastStage,
    line: Line,
}

/// The line that the rounds end at, by a table of needs of these chains, if there is one. No reason chain is written out yet.
fn reach(chains: &Chains, needs: Option<&Needs<'_>>, failed: &Failed) -> Result<Reached, AllocError>
    requires { IfSome needs (λ n. IsTableOf chains.now.accepted n.now) }
    ensures { IfOk result (IsReached chains.now.accepted failed.now) }
{
    chains.recall_lawful();
    let surviving_ranks = last_surviving_ranks(chains, failed)?;
    let last = last_stage(chains, at_last(needs, &surviving_ranks), &surviving_ranks)?;
    let line = line_at(chains, &last.stage.cut)?;
    Ok(Reached {
        surviving_ranks,
        last,
        line,
    })
}

/// The cut as `greatest_cut` has it, by a table of needs of these chains, if there is one.
fn cut_by(chains: &Chains, needs: Option<&Needs<'_>>, failed: &Failed) -> Result<Cut, AllocError>
    requires { IfSome needs (λ n. IsTableOf chains.now.accepted n.now) }
    ensures { IfOk result (IsCutFor chains.now.accepted failed.now) }
{
    chains.recall_lawful();
    let Reached {
        surviving_ranks,
        last,
        line,
    } = reach(chains, needs, failed)?;
    let reasons = needed_reasons(chains, &last.arena, &surviving_ranks, &last.stage)?;
    Ok(Cut {
        line,
        reasons,
        rounds: last.rounds,
    })
}

/// The greatest stamp-consistent cut over these chains for a failed set. In every lawful history that agrees with the accepted
/// reports it is the greatest closed cut.
pub fn greatest_cut(chains: &Chains, failed: &Failed) -> Result<Cut, AllocError>
    ensures { IfOk result (IsCutFor chains.now.accepted failed.now) }
{
    cut_by(chains, None, failed)
}

/// The line of the same cut, for whoever asks for no reasons.
pub fn greatest_line(chains: &Chains, failed: &Failed) -> Result<Line, AllocError>
    ensures { IfOk result (IsGreatestLine chains.now.accepted failed.now) }
{
    chains.recall_lawful();
    let Reached { line, .. } = reach(chains, None, failed)?;
    Ok(line)
}

/// The same cut, with the same chains and as many rounds, by a table of needs of these chains. It waits for nobody.
pub fn greatest_cut_from(
    chains: &Chains,
    needs: &Needs<'_>,
    failed: &Failed,
) -> Result<Cut, AllocError>
    requires { IsTableOf chains.now.accepted needs.now }
    ensures { IfOk result (IsCutFor chains.now.accepted failed.now) }
{
    cut_by(chains, Some(needs), failed)
}

/// The certificate as `certificate` has it, by a table of needs of these chains, if there is one. With a table it waits for nobody.
pub fn certificate_by(
    chains: &Chains,
    needs: Option<&Needs<'_>>,
    failed: &Failed,
) -> Result<Certificate, AllocError>
    requires { IfSome needs (λ n. IsTableOf chains.now.accepted n.now) }
    ensures { IfOk result (IsCertificateFor (held_of chains.now) failed.now) }
{
    let failed = failed.known_to(chains)?;
    let cut = cut_by(chains, needs, &failed)?;
    Ok(Certificate {
        failed: Numbers::from_vec(failed.into_numbers()),
        front: chains.front() as u64,
        line: cut.line,
        reasons: cut.reasons,
    })
}

/// The certificate of the greatest cut over these chains for those of the failed set that are known.
pub fn certificate(chains: &Chains, failed: &Failed) -> Result<Certificate, AllocError>
    ensures { IfOk result (IsCertificateFor (held_of chains.now) failed.now) }
{
    certificate_by(chains, None, failed)
}

/// What certifies for what is held, where its list is folded, is the greatest stamp-consistent cut of that list, and so the
/// greatest closed cut of every lawful history that agrees with it.
pub fn certified_lines_are_the_greatest()
    ensures cut { (held : Held) (c : AnyCertificate) → IsFolded held.accepted → Certifies held c → IsGreatestCut held.accepted c.failed (positions_of c.line) }
    ensures of_histories { (held : Held) (c : AnyCertificate) → IsFolded held.accepted → Certifies held c → IsLineOfHistories held.accepted c.failed (positions_of c.line) }
{}

/// What the rounds choose over a list for a failed set is one line, with one list of reason chains and one number of rounds;
/// so there is one certificate of them.
pub fn the_rounds_choose_once()
    ensures cut { (accepted : List Report) (failed : List ℕ) (line other : List AnyPlace) (reasons others : List (List AnyPlace)) (n m : ℕ)
        → AreChosen accepted failed line reasons n → AreChosen accepted failed other others m → (line ≡ other) × (reasons ≡ others) × (n ≡ m) }
    ensures certificate { (held : Held) (failed : List ℕ) (c d : AnyCertificate) → IsChosenCertificate held failed c → IsChosenCertificate held failed d → c ≡ d }
{}
