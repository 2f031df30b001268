//! Each call of `process`, which does what an account says of it.
//!
//! An account names a call with the process before and behind it (`made`), and with what was handed in and given out. So whoever writes down
//! the calls that he makes has in each function's clause that the account's word of that call is true (`done`). The other clauses are those of
//! the call itself.

ghost use Rattle.std.specs.Prelude.{◌≡◌, ◌≤◌, ◌<◌, ℕ, [], false, IsTrue, IfOk, IfErr, IsErr, OnOk, OnErr};
ghost use Rattle.id_tree.specs.NormalForm.{depth_limit};
ghost use Rattle.id_tree.specs.Split.{parts_depth};
ghost use Rattle.event_tree.specs.EventTree.{EventTree};
ghost use Rattle.event_tree.specs.Event.{PassesLimit};
ghost use Rattle.stamp.specs.Operations.{IsNormalJoin};
ghost use Rattle.report_line.specs.declared.report.Report.TheVariants as reports;
ghost use Rattle.process.specs.declared.process.Process.{Process as AnyProcess};
ghost use Rattle.process.specs.Steps.{Halves, IsLineOf};
ghost use Rattle.process.specs.Leaves.{IsLeafAt, IsFromDeepest, HasRoomFor};
ghost use Rattle.process.specs.Faults.{RefusesEvent, RefusesReport, RefusesAgain, RefusesReceipt, RefusesFork, RefusesLeaf, RefusesRetirement, RefusesAbsorption, RefusesKept, RefusesReturn, IsWorn};
ghost use Rattle.law_process.specs.Accounts.{Work, Send, Again, Receive, Check, Present, Fork, Begin, Retire, Absorb, Return, IsDone, made, ended_with};
ghost use Rattle.law_process.specs.Handing.{GoesFromNewest, first};

use process::{Message, Process, ProcessFault, Retirement, Start};
use report_line::Name;
use std::alloc::{AllocError, Global};

/// The root begins: it is what an account with this root has before its first call, and goes on from there.
pub fn root(alloc: Global, name: &Name) -> Result<(Process, Vec<u8>), AllocError>
    ensures process { IfOk result (λ begun. begun.0 ≡ first name.now) }
    ensures newest { IfOk result (λ begun. GoesFromNewest name.now [] begun.0) }
    ensures line { IfOk result (λ begun. IsLineOf 0 (reports.Begin name.now) begun.1.items) }
{
    Process::root(alloc, name)
}

/// Works on.
pub fn work(alloc: Global, process: &mut Process) -> Result<(), ProcessFault>
    ensures done { OnOk result (IsDone (made Work process.old process.new)) }
    ensures err { IfErr result (λ fault. RefusesEvent fault process.old.stamp) }
    ensures full { PassesLimit process.old.stamp.id process.old.stamp.events → IsErr result }
    ensures unchanged { OnErr result (process.new ≡ process.old) }
{
    process.work(alloc)
}

/// Sends a message.
pub fn send(alloc: Global, process: &mut Process) -> Result<Message, ProcessFault>
    ensures done { IfOk result (λ message. IsDone (made (Send message) process.old process.new)) }
    ensures err { IfErr result (λ fault. RefusesEvent fault process.old.stamp) }
    ensures full { PassesLimit process.old.stamp.id process.old.stamp.events → IsErr result }
    ensures unchanged { OnErr result (process.new ≡ process.old) }
{
    process.send(alloc)
}

/// Hands a message over once more, whichever call sent it.
pub fn again(alloc: Global, process: &Process, message: &Message) -> Result<Message, ProcessFault>
    ensures done { IfOk result (λ again. (from : ℕ) → IsDone (made (Again from message.now again) process.now process.now)) }
    ensures err { IfErr result (λ fault. RefusesAgain fault process.now message.now) }
{
    process.again(alloc, message)
}

/// Receives a message, whichever call sent it.
pub fn receive(alloc: Global, process: &mut Process, message: &Message) -> Result<(), ProcessFault>
    ensures done { OnOk result ((from : ℕ) → IsDone (made (Receive from message.now) process.old process.new)) }
    ensures err { IfErr result (λ fault. RefusesReceipt fault process.old.epoch process.old.stamp message.now) }
    ensures full { (joined : EventTree) → IsNormalJoin process.old.stamp.events message.now.events joined → PassesLimit process.old.stamp.id joined → IsErr result }
    ensures unchanged { OnErr result (process.new ≡ process.old) }
{
    process.receive(alloc, message)
}

/// Takes a checkpoint.
pub fn check(alloc: Global, process: &mut Process) -> Result<Vec<u8>, ProcessFault>
    ensures done { IfOk result (λ line. IsDone (made (Check line.items) process.old process.new)) }
    ensures err { IfErr result (λ fault. RefusesReport fault process.old) }
    ensures worn { IsWorn process.old → IsErr result }
    ensures full { PassesLimit process.old.stamp.id process.old.stamp.events → IsErr result }
    ensures unchanged { OnErr result (process.new ≡ process.old) }
{
    process.check(alloc)
}

/// Tells its present state.
pub fn present(alloc: Global, process: &mut Process) -> Result<Vec<u8>, ProcessFault>
    ensures done { IfOk result (λ line. IsDone (made (Present line.items) process.old process.new)) }
    ensures err { IfErr result (λ fault. RefusesReport fault process.old) }
    ensures worn { IsWorn process.old → IsErr result }
    ensures full { PassesLimit process.old.stamp.id process.old.stamp.events → IsErr result }
    ensures unchanged { OnErr result (process.new ≡ process.old) }
{
    process.present(alloc)
}

/// Makes a child, which gets half of the id.
pub fn fork(
    alloc: Global,
    process: &mut Process,
    child: &Name,
) -> Result<(Vec<u8>, Start), ProcessFault>
    ensures done { IfOk result (λ forked. IsDone (made (Fork forked.1 forked.0.items) process.old process.new)) }
    ensures named { IfOk result (λ forked. forked.1.child ≡ child.now) }
    ensures halves { IfOk result (λ forked. Halves process.old.stamp.id process.new.stamp.id forked.1.stamp.id) }
    ensures err { IfErr result (λ fault. RefusesFork fault process.old child.now) }
    ensures worn { IsWorn process.old → IsErr result }
    ensures full { PassesLimit process.old.stamp.id process.old.stamp.events → IsErr result }
    ensures deep { depth_limit < parts_depth process.old.stamp.id → IsErr result }
    ensures unchanged { OnErr result (process.new ≡ process.old) }
{
    process.fork(alloc, child)
}

/// Makes a child, which gets a leaf of this depth.
pub fn fork_small(
    alloc: Global,
    process: &mut Process,
    child: &Name,
    depth: u8,
) -> Result<(Vec<u8>, Start), ProcessFault>
    ensures done { IfOk result (λ forked. IsDone (made (Fork forked.1 forked.0.items) process.old process.new)) }
    ensures named { IfOk result (λ forked. forked.1.child ≡ child.now) }
    ensures leaf { IfOk result (λ forked. IsLeafAt depth forked.1.stamp.id) }
    ensures deepest { IfOk result (λ forked. IsFromDeepest process.old.stamp.id depth forked.1.stamp.id) }
    ensures err { IfErr result (λ fault. RefusesLeaf fault process.old child.now depth) }
    ensures worn { IsWorn process.old → IsErr result }
    ensures full { PassesLimit process.old.stamp.id process.old.stamp.events → IsErr result }
    ensures room { (¬ HasRoomFor process.old.stamp.id depth) → IsErr result }
    ensures unchanged { OnErr result (process.new ≡ process.old) }
{
    process.fork_small(alloc, child, depth)
}

/// Begins with a start, whichever call gave it. What was there before is left open.
pub fn begin(start: Start) -> Process
    ensures { (from : ℕ) (before : AnyProcess) → IsDone (made (Begin from start) before result) }
{
    Process::born(start)
}

/// Ends. Behind it the account has the process with the stamp that it leaves, and one report more. Where that is refused it is given back.
pub fn retire(
    alloc: Global,
    process: Process,
    target: &Name,
) -> Result<(Vec<u8>, Retirement), (ProcessFault, Process)>
    ensures done { IfOk result (λ ended. IsDone (made (Retire target.now ended.1 ended.0.items) process (ended_with process ended.1))) }
    ensures err { IfErr result (λ refused. RefusesRetirement refused.0 process target.now) }
    ensures itself { target.now ≡ process.name → IsErr result }
    ensures worn { IsWorn process → IsErr result }
    ensures full { PassesLimit process.stamp.id process.stamp.events → IsErr result }
    ensures unchanged { IfErr result (λ refused. refused.1 ≡ process) }
{
    process.retire(alloc, target)
}

/// Absorbs a retirement of its epoch, whichever call gave it.
pub fn absorb(
    alloc: Global,
    process: &mut Process,
    retirement: &Retirement,
) -> Result<Vec<u8>, ProcessFault>
    ensures done { IfOk result (λ line. (from : ℕ) → IsDone (made (Absorb from retirement.now line.items) process.old process.new)) }
    ensures epoch { OnOk result (retirement.now.epoch ≡ process.old.epoch) }
    ensures err { IfErr result (λ fault. RefusesAbsorption fault process.old retirement.now) }
    ensures worn { IsWorn process.old → IsErr result }
    ensures full { PassesLimit process.old.stamp.id process.old.stamp.events → IsErr result }
    ensures unchanged { OnErr result (process.new ≡ process.old) }
{
    process.absorb(alloc, retirement)
}

/// Absorbs a retirement that settlements kept, whichever call gave it.
pub fn absorb_kept(
    alloc: Global,
    process: &mut Process,
    retirement: &Retirement,
) -> Result<Vec<u8>, ProcessFault>
    ensures done { IfOk result (λ line. (from : ℕ) → IsDone (made (Absorb from retirement.now line.items) process.old process.new)) }
    ensures epoch { OnOk result (retirement.now.epoch ≤ process.old.epoch) }
    ensures err { IfErr result (λ fault. RefusesKept fault process.old retirement.now) }
    ensures worn { IsWorn process.old → IsErr result }
    ensures full { PassesLimit process.old.stamp.id process.old.stamp.events → IsErr result }
    ensures unchanged { OnErr result (process.new ≡ process.old) }
{
    process.absorb_kept(alloc, retirement)
}

/// Returns to what was kept, which is what the account has before this call.
pub fn return_to(
    process: &mut Process,
    kept: Process,
    epoch: u32,
) -> Result<(), (ProcessFault, Process)>
    ensures done { OnOk result (IsDone (made (Return epoch) kept process.new)) }
    ensures same_name { OnOk result (kept.name ≡ process.old.name) }
    ensures later { OnOk result (process.old.epoch < epoch) }
    ensures err { IfErr result (λ refused. RefusesReturn refused.0 process.old kept epoch) }
    ensures unchanged { OnErr result (process.new ≡ process.old) }
    ensures given_back { IfErr result (λ refused. refused.1 ≡ kept) }
{
    process.return_to(kept, epoch)
}

/// Returns to what it is. `false` where it does not.
pub fn returned(process: &mut Process, epoch: u32) -> bool
    ensures done { IsTrue result → IsDone (made (Return epoch) process.old process.new) }
    ensures refused { result ≡ false → (epoch ≤ process.old.epoch) × (process.new ≡ process.old) }
{
    process.returned(epoch)
}
