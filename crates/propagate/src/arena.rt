//! Reason chains that share their beginnings.

ghost use Rattle.std.specs.Prelude.{◌≡◌, ◌<◌, ◌++◌, ◌∷◌, [], reverse, IfOk, OnErr, length, get_or};
ghost use Rattle.propagate.specs.working.Nodes.{unwound, AreBehind};

use chains::{Place, Places};
use std::alloc::{AllocError, Global};
use std::marker::Model;

/// The last place of a chain, and the number of the chain of all before it, if there are such.
#[derive(Drop)]
struct Node {
    place: Place,
    before: Option<usize>,
}

/// Reason chains, seen as their list. A chain that prolongs another one shares it.
pub(crate) struct Arena {
    alloc: Global,
    nodes: Vec<Node>,
}

impl Drop for Arena {
    fn drop(self) {
        let Arena { alloc: _, nodes: _ } = self;
    }
}

impl Model for Arena {
    ghost use Rattle.std.specs.Prelude.{List, []};
    ghost use Rattle.chains.specs.declared.position.Place.{Place};
    ghost use Rattle.reasons.specs.working.Codes.{reasons_code};
    ghost use Rattle.propagate.specs.working.Nodes.{unwound, AreBehind};

    ghost Value = { List (List Place) };

    ghost coded = { reasons_code };

    ghost view = { λ a. unwound [] a.nodes.items };

    ghost invariant = { λ a. AreBehind a.nodes.items };
}

impl Arena {
    /// No chains. It takes no memory.
    pub(crate) fn new(alloc: Global) -> Arena
        ensures { result ≡ [] }
    {
        Arena {
            alloc,
            nodes: Vec::new(alloc),
        }
    }

    /// Adds a chain of one place, and gives its number.
    pub(crate) fn start(&mut self, place: Place) -> Result<usize, AllocError>
        ensures ok { IfOk result (λ i. (i ≡ length self.old) × (self.new ≡ self.old ++ (place ∷ []) ∷ [])) }
        ensures err { OnErr result (self.new ≡ self.old) }
    {
        let number = self.nodes.len();
        self.nodes.push(Node {
            place,
            before: None,
        })?;
        Ok(number)
    }

    /// Adds the chain of this number with one place more, and gives the number of the longer one.
    pub(crate) fn prolong(&mut self, chain: usize, place: Place) -> Result<usize, AllocError>
        requires { chain < length self.old }
        ensures ok { IfOk result (λ i. (i ≡ length self.old) × (self.new ≡ self.old ++ (get_or self.old chain [] ++ place ∷ []) ∷ [])) }
        ensures err { OnErr result (self.new ≡ self.old) }
    {
        let number = self.nodes.len();
        self.nodes.push(Node {
            place,
            before: Some(chain),
        })?;
        Ok(number)
    }

    /// The chain of this number.
    pub(crate) fn chain(&self, chain: usize) -> Result<Places, AllocError>
        requires { chain < length self.now }
        ensures { IfOk result (λ places. places ≡ get_or self.now chain []) }
    {
        let mut places = reversed(self.alloc, &self.nodes, chain)?;
        places.reverse();
        Ok(Places::from_vec(places))
    }
}

/// The places of the chain of a node, the last one first.
fn reversed(alloc: Global, nodes: &[Node], chain: usize) -> Result<Vec<Place>, AllocError>
    requires within { chain < length nodes.now }
    requires behind { AreBehind nodes.now }
    ensures { IfOk result (λ places. reverse places.items ≡ get_or (unwound [] nodes.now) chain []) }
{
    let mut places = Vec::new(alloc);
    let mut rest = Some(chain);
    while let Some(number) = rest {
        let node = &nodes[number];
        places.push(node.place)?;
        rest = node.before;
    }
    Ok(places)
}
