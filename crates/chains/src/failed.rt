//! Sets of failed processes.

ghost use Rattle.std.specs.Prelude.{◌≡◌, ◌<◌, ◌^◌, ◌↔◌, List, ℕ, Err, IfOk, IfErr, OnOk, IsTrue, MatchOption, All, Contains, length};
ghost use Rattle.std.specs.List.Sorted.{IsStrictlyIncreasing};
ghost use Rattle.chains.specs.Processes.{known, IsKnown};
ghost use Rattle.chains.specs.Failures.{IsFailedSet, IsFirstUnknown, FailsAs, AreMarked};
ghost use Rattle.chains.specs.working.Flags.{AreFlagged, AreNumbersOf};

use crate::chains::Chains;
use report_line::{Name, Names};
use std::alloc::{AllocError, Global};
use std::marker::Model;
use thiserror::Error;

/// Failed processes, seen as their numbers in order of birth.
pub struct Failed {
    numbers: Vec<u32>,
}

impl Drop for Failed {
    fn drop(self) {
        let Failed { numbers: _ } = self;
    }
}

impl Model for Failed {
    ghost use Rattle.std.specs.Prelude.{List, ℕ};
    ghost use Rattle.std.specs.List.Sorted.{IsStrictlyIncreasing};

    ghost Value = { List ℕ };

    ghost view = { λ f. f.numbers.items };

    ghost invariant = { λ f. IsStrictlyIncreasing f.numbers.items };
}

/// Why names make no set of failed processes.
#[derive(Debug, Drop, Error)]
pub enum FailedFault {
    /// No process has this name, the first such of those that were given.
    #[error("unknown process")]
    Unknown(Name),
    /// A growth was refused.
    #[error("memory")]
    Memory,
}

impl Failed {
    /// The failed processes of these names, whose order and repeats do not matter.
    pub fn from_names(chains: &Chains, names: &Names) -> Result<Failed, FailedFault>
        ensures { FailsAs result chains.now.accepted names.now }
    {
        let flags = flags_of(chains, names)?;
        match marked(chains.alloc(), &flags) {
            Ok(numbers) => Ok(Failed { numbers }),
            Err(_) => Err(FailedFault::Memory),
        }
    }

    /// All known processes.
    pub fn all(chains: &Chains) -> Result<Failed, AllocError>
        ensures { IfOk result (λ f. IsFailedSet chains.now.accepted (known chains.now.accepted) f) }
    {
        chains.recall_lawful();
        let flags = Vec::from_elem(chains.alloc(), true, chains.count() as usize)?;
        let numbers = marked(chains.alloc(), &flags)?;
        Ok(Failed { numbers })
    }

    /// The numbers of the failed processes, in order of birth.
    pub fn numbers(&self) -> &[u32]
        ensures numbers { result.now ≡ self.now }
        ensures in_order { IsStrictlyIncreasing result.now }
    {
        &self.numbers
    }

    /// The numbers of the failed processes, in order of birth.
    pub fn into_numbers(self) -> Vec<u32>
        ensures numbers { result.items ≡ self }
        ensures in_order { IsStrictlyIncreasing result.items }
    {
        let Failed { numbers } = self;
        numbers
    }

    /// Those of them that are known to these chains, from which the set need not be.
    pub fn known_to(&self, chains: &Chains) -> Result<Failed, AllocError>
        ensures { IfOk result (λ f. (p : ℕ) → (Contains f p ↔ (Contains self.now p × (p < length (known chains.now.accepted))))) }
    {
        chains.recall_lawful();
        let flags = flags_below(chains.alloc(), self.numbers(), chains.count() as usize)?;
        let numbers = marked(chains.alloc(), &flags)?;
        Ok(Failed { numbers })
    }

    /// Whether the process of this number failed. It takes no memory.
    pub fn contains(&self, process: u32) -> bool
        ensures { IsTrue result ↔ Contains self.now process }
    {
        self.numbers.contains(&process)
    }
}

/// The first of these names that no process has. It takes no memory.
pub fn first_unknown(chains: &Chains, names: &Names) -> Option<Name>
    ensures { MatchOption result (All (IsKnown chains.now.accepted) names.now) (λ name. IsFirstUnknown chains.now.accepted names.now name) }
{
    let mut left = names.left();
    while let Some(name) = left.next() {
        match chains.number_of(&name) {
            None => return Some(name),
            Some(_) => {}
        }
    }
    None
}

/// Which processes are named, in order of birth. Names that no process has are passed over.
pub fn which_are_named(chains: &Chains, names: &Names) -> Result<Vec<bool>, AllocError>
    ensures { IfOk result (λ flags. AreMarked chains.now.accepted names.now flags.items) }
{
    chains.recall_lawful();
    let mut flags = Vec::from_elem(chains.alloc(), false, chains.count() as usize)?;
    let mut left = names.left();
    while let Some(name) = left.next() {
        match chains.number_of(&name) {
            None => {}
            Some(number) => flags[number as usize] = true,
        }
    }
    Ok(flags)
}

/// Why there is no set of these names where no memory is left: the first unknown one comes first.
fn without_memory(chains: &Chains, names: &Names) -> FailedFault
    ensures { FailsAs (Err result) chains.now.accepted names.now }
{
    match first_unknown(chains, names) {
        Some(name) => FailedFault::Unknown(name),
        None => FailedFault::Memory,
    }
}

/// Which processes have one of these names.
fn flags_of(chains: &Chains, names: &Names) -> Result<Vec<bool>, FailedFault>
    ensures known { OnOk result (All (IsKnown chains.now.accepted) names.now) }
    ensures marked { IfOk result (λ flags. AreMarked chains.now.accepted names.now flags.items) }
    ensures fault { IfErr result (λ fault. FailsAs (Err fault) chains.now.accepted names.now) }
    ensures at_most { IfOk result (λ flags. length flags.items < 2 ^ 32) }
{
    chains.recall_lawful();
    let Ok(mut flags) = Vec::from_elem(chains.alloc(), false, chains.count() as usize) else {
        return Err(without_memory(chains, names));
    };
    let mut left = names.left();
    while let Some(name) = left.next() {
        let Some(number) = chains.number_of(&name) else {
            return Err(FailedFault::Unknown(name));
        };
        flags[number as usize] = true;
    }
    Ok(flags)
}

/// Which numbers below the count are among these.
fn flags_below(alloc: Global, numbers: &[u32], count: usize) -> Result<Vec<bool>, AllocError>
    ensures { IfOk result (λ flags. AreFlagged numbers.now count flags.items) }
{
    let mut flags = Vec::from_elem(alloc, false, count)?;
    for i in 0..numbers.len() {
        let number = numbers[i] as usize;
        if number < count {
            flags[number] = true;
        }
    }
    Ok(flags)
}

/// The places of the flags that are set.
fn marked(alloc: Global, flags: &[bool]) -> Result<Vec<u32>, AllocError>
    requires { length flags.now < 2 ^ 32 }
    ensures { IfOk result (λ ns. AreNumbersOf flags.now ns.items) }
{
    let mut numbers = Vec::new(alloc);
    for i in 0..flags.len() {
        if flags[i] {
            numbers.push(i as u32)?;
        }
    }
    Ok(numbers)
}
