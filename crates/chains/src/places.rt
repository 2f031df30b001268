//! Places in a row.

ghost use Rattle.std.specs.Prelude.{◌≡◌, ◌++◌, ◌∷◌, [], OnOk, OnErr};

use crate::position::Place;
use std::alloc::{AllocError, Global};
use std::marker::Model;

/// Places in a row.
pub struct Places {
    places: Vec<Place>,
}

impl Drop for Places {
    fn drop(self) {
        let Places { places: _ } = self;
    }
}

/// A recovery line: the place of each known process, in order of birth.
pub type Line = Places;

impl Model for Places {
    ghost use Rattle.std.specs.Prelude.{List};
    ghost use Rattle.std.specs.Coded.{coded_list};
    ghost use Rattle.chains.specs.declared.position.Place.{Place};
    ghost use Rattle.chains.specs.working.Codes.{place_code};

    ghost Value = { List Place };

    ghost coded = { coded_list place_code };

    ghost view = { λ p. p.places.items };
}

impl Places {
    /// No places. It takes no memory.
    pub fn new(alloc: Global) -> Places
        ensures { result ≡ [] }
    {
        Places {
            places: Vec::new(alloc),
        }
    }

    /// These places.
    pub fn from_vec(places: Vec<Place>) -> Places
        ensures { result ≡ places.items }
    {
        Places { places }
    }

    /// Appends a place.
    pub fn push(&mut self, place: Place) -> Result<(), AllocError>
        ensures ok { OnOk result (self.new ≡ self.old ++ place ∷ []) }
        ensures err { OnErr result (self.new ≡ self.old) }
    {
        self.places.push(place)?;
        Ok(())
    }

    /// The places, in order.
    pub fn as_slice(&self) -> &[Place]
        ensures { result.now ≡ self.now }
    {
        &self.places
    }
}
