//! Certificates of recovery lines.

ghost use Rattle.std.specs.Prelude.{◌≡◌, ◌++◌, ◌∷◌, [], OnOk, OnErr};

use chains::{Line, Places};
use std::alloc::{AllocError, Global};
use std::marker::Model;

/// Numbers of processes in a row.
pub struct Numbers {
    numbers: Vec<u32>,
}

impl Drop for Numbers {
    fn drop(self) {
        let Numbers { numbers: _ } = self;
    }
}

impl Model for Numbers {
    ghost use Rattle.std.specs.Prelude.{List, ℕ};

    ghost Value = { List ℕ };

    ghost view = { λ n. n.numbers.items };
}

impl Numbers {
    /// These numbers.
    pub fn from_vec(numbers: Vec<u32>) -> Numbers
        ensures { result ≡ numbers.items }
    {
        Numbers { numbers }
    }

    /// The numbers, in order.
    pub fn as_slice(&self) -> &[u32]
        ensures { result.now ≡ self.now }
    {
        &self.numbers
    }
}

/// Reason chains in a row. A chain begins at the last surviving place of a process that did not retire; each later place
/// knows the process of the one before it after the position below that one.
pub struct Reasons {
    chains: Vec<Places>,
}

impl Drop for Reasons {
    fn drop(self) {
        let Reasons { chains: _ } = self;
    }
}

impl Model for Reasons {
    ghost use Rattle.std.specs.Prelude.{List};
    ghost use Rattle.chains.specs.declared.position.Place.{Place};
    ghost use Rattle.reasons.specs.working.Codes.{reasons_code};

    ghost Value = { List (List Place) };

    ghost coded = { reasons_code };

    ghost view = { λ r. r.chains.items };
}

impl Reasons {
    /// No chains. It takes no memory.
    pub fn new(alloc: Global) -> Reasons
        ensures { result ≡ [] }
    {
        Reasons {
            chains: Vec::new(alloc),
        }
    }

    /// Appends a chain.
    pub fn push(&mut self, chain: Places) -> Result<(), AllocError>
        ensures ok { OnOk result (self.new ≡ self.old ++ chain ∷ []) }
        ensures err { OnErr result (self.new ≡ self.old) }
    {
        self.chains.push(chain)?;
        Ok(())
    }

    /// The chains, in order.
    pub fn as_slice(&self) -> &[Places]
        ensures { result.now ≡ self.now }
    {
        &self.chains
    }
}

/// A recovery line, with what shows that no process could stay further on.
#[derive(Drop)]
pub struct Certificate {
    /// The failed processes by their numbers.
    pub failed: Numbers,
    /// How many reports were accepted.
    pub front: u64,
    /// The place of each process.
    pub line: Line,
    /// A chain for each process below its last surviving position.
    pub reasons: Reasons,
}
