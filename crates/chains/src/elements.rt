//! The elements of a process.

ghost use Rattle.std.specs.Prelude.{◌≡◌, ◌<◌, ◌≤◌, ◌+◌, length, slice_get};
ghost use Rattle.std.specs.Option.{option_map};
ghost use Rattle.chains.specs.Processes.{known};
ghost use Rattle.chains.specs.Elements.{elements};
ghost use Rattle.chains.specs.LastRun.{same_id_from};
ghost use Rattle.chains.specs.Stamps.{stamp_of};
ghost use Rattle.chains.specs.Admission.{report_limit};

use crate::chains::Chains;
use event_tree::Events;
use id_tree::Id;
use std::marker::Model;

/// An element: a birth, a checkpoint or a present state.
#[derive(Drop)]
pub struct Element<'a> {
    pub id: &'a Id,
    pub events: &'a Events,
}

/// The elements of a process, seen as their stamps in order: its birth, its checkpoints, and its present state.
#[derive(Drop)]
pub struct Elements<'a> {
    chains: &'a Chains,
    process: u32,
}

impl<'a> Model for Elements<'a> {
    ghost use Rattle.std.specs.Prelude.{◌<◌, List, length};
    ghost use Rattle.std.specs.Coded.{coded_list};
    ghost use Rattle.stamp.specs.declared.stamp.Stamp.{Stamp};
    ghost use Rattle.report_line.specs.working.Codes.{stamp_code};
    ghost use Rattle.chains.specs.Processes.{known};
    ghost use Rattle.chains.specs.Elements.{elements};

    ghost Value = { List Stamp };

    ghost coded = { coded_list stamp_code };

    ghost view = { λ e. elements e.chains.now.accepted e.process };

    ghost invariant = { λ e. e.process < length (known e.chains.now.accepted) };
}

impl<'a> Elements<'a> {
    /// The elements of a process by its number.
    pub(crate) fn of(chains: &'a Chains, process: u32) -> Elements<'a>
        requires { process < length (known chains.now.accepted) }
        ensures { result ≡ elements chains.now.accepted process }
    {
        Elements { chains, process }
    }

    /// How many they are.
    pub fn len(&self) -> u32
        ensures count { result ≡ length self.now }
        ensures at_most { result ≤ report_limit + 1 }
    {
        self.chains.element_count(self.process)
    }

    /// From which of them on, counted from 0, all have one id.
    pub fn same_id_from(&self) -> u32
        ensures run { result ≡ same_id_from self.now }
        ensures at_most { result ≤ report_limit }
    {
        self.chains.same_id_from(self.process)
    }

    /// Element k, counted from 0, where there are so many.
    pub fn get(&self, k: u32) -> Option<Element<'a>>
        ensures { option_map stamp_of result ≡ slice_get self.now k }
    {
        self.chains.element(self.process, k)
    }
}
