//! A process of a computation, for whoever calls C.
//!
//! A process, a message, the start of a child and a retirement are texts of one line without LF, those of the crate `process`. Each call takes
//! the text of the state that the process has, and what was handed to it, and gives texts, each ended by LF: the new state, the line of the
//! report, and what is handed out. They stand at the front of the caller's buffer, and the answer is how many bytes they have; where the buffer
//! has no room for all of them nothing is written. A negative answer is a fault, and nothing was written. Nothing is kept between calls.
#![tactic(auto)]

mod answer;
mod calls;
mod fault;
mod reading;
mod stepping;
mod writing;

ghost use Rattle.std.specs.Prelude.{◌≡◌};
ghost use Rattle.report_line.specs.declared.report.ReportKind.TheVariants as actions;
ghost use Rattle.process.specs.Faults.{RefusesEvent, RefusesReport, RefusesAgain, RefusesReceipt, RefusesFork, RefusesLeaf, RefusesRetirement, RefusesAbsorption, RefusesKept, RefusesReturn};
ghost use Rattle.process_c.specs.Texts.{IsStateOf, IsMessageOf, IsRetirementOf};
ghost use Rattle.process_c.specs.Answers.{IsAnswer};
ghost use Rattle.process_c.specs.Given.{IsWork, IsTelling, IsSending, IsHandingOver, IsReceipt, IsHalving, IsCarving, IsAbsorption, IsKeptAbsorption, IsReturn, IsReturned, Handed, Gives, GivesRoot, GivesChild, GivesRetirement};
ghost use Rattle.process_c.specs.Refusals.{ByProcess, ByName, ByText, Refuses, RefusesRoot, RefusesChild, RefusesReturned};

use crate::answer::answer;
pub use fault::Fault;
use std::alloc::Global;

/// The root of a computation begins: its state, and the line of its `BEGIN`.
#[unsafe(no_mangle)]
pub extern "C" fn recline_root(alloc: Global, name: &[u8], out: &mut [u8]) -> i64
    ensures { IsAnswer (GivesRoot name.now) (RefusesRoot name.now) result out.old out.new }
{
    answer(calls::root(alloc, name), out)
}

/// A child begins from what its parent handed over: its state.
#[unsafe(no_mangle)]
pub extern "C" fn recline_born(alloc: Global, start: &[u8], out: &mut [u8]) -> i64
    ensures { IsAnswer (GivesChild start.now) (RefusesChild start.now) result out.old out.new }
{
    answer(calls::born(alloc, start), out)
}

/// A step of its own that is not reported: the new state.
#[unsafe(no_mangle)]
pub extern "C" fn recline_work(alloc: Global, state: &[u8], out: &mut [u8]) -> i64
    ensures { IsAnswer (Gives (IsWork) state.now) (Refuses (ByProcess (λ fault p. RefusesEvent fault p.stamp)) state.now) result out.old out.new }
{
    answer(calls::work(alloc, state), out)
}

/// A checkpoint: the new state, which is kept with it, and the line of the `CHECK`.
#[unsafe(no_mangle)]
pub extern "C" fn recline_check(alloc: Global, state: &[u8], out: &mut [u8]) -> i64
    ensures { IsAnswer (Gives (IsTelling actions.Check) state.now) (Refuses (ByProcess RefusesReport) state.now) result out.old out.new }
{
    answer(calls::check(alloc, state), out)
}

/// The present state: the new state and the line of the `PRESENT`.
#[unsafe(no_mangle)]
pub extern "C" fn recline_present(alloc: Global, state: &[u8], out: &mut [u8]) -> i64
    ensures { IsAnswer (Gives (IsTelling actions.Present) state.now) (Refuses (ByProcess RefusesReport) state.now) result out.old out.new }
{
    answer(calls::present(alloc, state), out)
}

/// A message is sent: the new state, and what goes with the message.
#[unsafe(no_mangle)]
pub extern "C" fn recline_send(alloc: Global, state: &[u8], out: &mut [u8]) -> i64
    ensures { IsAnswer (Gives (IsSending) state.now) (Refuses (ByProcess (λ fault p. RefusesEvent fault p.stamp)) state.now) result out.old out.new }
{
    answer(calls::send(alloc, state), out)
}

/// A message that the process knows is handed over once more, with the epoch of the process: the state, which stays as it is, and what goes with
/// the message now.
#[unsafe(no_mangle)]
pub extern "C" fn recline_again(alloc: Global, state: &[u8], message: &[u8], out: &mut [u8]) -> i64
    ensures { IsAnswer (Gives (Handed IsMessageOf IsHandingOver message.now) state.now) (Refuses (ByText IsMessageOf (λ m fault p. RefusesAgain fault p m) message.now) state.now) result out.old out.new }
{
    answer(calls::again(alloc, state, message), out)
}

/// A message is received: the new state.
#[unsafe(no_mangle)]
pub extern "C" fn recline_receive(
    alloc: Global,
    state: &[u8],
    message: &[u8],
    out: &mut [u8],
) -> i64
    ensures { IsAnswer (Gives (Handed IsMessageOf IsReceipt message.now) state.now) (Refuses (ByText IsMessageOf (λ m fault p. RefusesReceipt fault p.epoch p.stamp m) message.now) state.now) result out.old out.new }
{
    answer(calls::receive(alloc, state, message), out)
}

/// A child gets half of the id: the new state, the line of the `FORK`, and what the child starts from.
#[unsafe(no_mangle)]
pub extern "C" fn recline_fork(alloc: Global, state: &[u8], child: &[u8], out: &mut [u8]) -> i64
    ensures { IsAnswer (Gives (IsHalving child.now) state.now) (Refuses (ByName (λ fault p. RefusesFork fault p child.now) child.now) state.now) result out.old out.new }
{
    answer(calls::fork(alloc, state, child), out)
}

/// A child gets a leaf of this depth: the same.
#[unsafe(no_mangle)]
pub extern "C" fn recline_fork_small(
    alloc: Global,
    state: &[u8],
    child: &[u8],
    depth: u8,
    out: &mut [u8],
) -> i64
    ensures { IsAnswer (Gives (IsCarving child.now depth) state.now) (Refuses (ByName (λ fault p. RefusesLeaf fault p child.now depth) child.now) state.now) result out.old out.new }
{
    answer(calls::fork_small(alloc, state, child, depth), out)
}

/// The process ends: the line of the `RETIRE`, and what its target is to absorb.
#[unsafe(no_mangle)]
pub extern "C" fn recline_retire(alloc: Global, state: &[u8], target: &[u8], out: &mut [u8]) -> i64
    ensures { IsAnswer (GivesRetirement target.now state.now) (Refuses (ByName (λ fault p. RefusesRetirement fault p target.now) target.now) state.now) result out.old out.new }
{
    answer(calls::retire(alloc, state, target), out)
}

/// A process that retired into this one is absorbed: the new state, and the line of the `ABSORB`.
#[unsafe(no_mangle)]
pub extern "C" fn recline_absorb(
    alloc: Global,
    state: &[u8],
    retirement: &[u8],
    out: &mut [u8],
) -> i64
    ensures { IsAnswer (Gives (Handed IsRetirementOf IsAbsorption retirement.now) state.now) (Refuses (ByText IsRetirementOf (λ r fault p. RefusesAbsorption fault p r) retirement.now) state.now) result out.old out.new }
{
    answer(calls::absorb(alloc, state, retirement), out)
}

/// The same where it is of this epoch or an older one, and each settlement since has kept its retirement.
#[unsafe(no_mangle)]
pub extern "C" fn recline_absorb_kept(
    alloc: Global,
    state: &[u8],
    retirement: &[u8],
    out: &mut [u8],
) -> i64
    ensures { IsAnswer (Gives (Handed IsRetirementOf IsKeptAbsorption retirement.now) state.now) (Refuses (ByText IsRetirementOf (λ r fault p. RefusesKept fault p r) retirement.now) state.now) result out.old out.new }
{
    answer(calls::absorb_kept(alloc, state, retirement), out)
}

/// The process returns to a state that was kept of it, in the epoch of a settlement: the new state.
#[unsafe(no_mangle)]
pub extern "C" fn recline_return_to(
    alloc: Global,
    state: &[u8],
    kept: &[u8],
    epoch: u32,
    out: &mut [u8],
) -> i64
    ensures { IsAnswer (Gives (Handed IsStateOf (IsReturn epoch) kept.now) state.now) (Refuses (ByText IsStateOf (λ k fault p. RefusesReturn fault p k epoch) kept.now) state.now) result out.old out.new }
{
    answer(calls::return_to(alloc, state, kept, epoch), out)
}

/// A process that was lost returns to this state, which was kept of it, in the epoch of a settlement: the new state.
#[unsafe(no_mangle)]
pub extern "C" fn recline_returned(alloc: Global, state: &[u8], epoch: u32, out: &mut [u8]) -> i64
    ensures { IsAnswer (Gives (IsReturned epoch) state.now) (Refuses (ByProcess (RefusesReturned epoch)) state.now) result out.old out.new }
{
    answer(calls::returned(alloc, state, epoch), out)
}
