//! What admission answers.

ghost use Rattle.std.specs.Prelude.{◌≡◌};

use report_line::{Code, Name, Text};
use std::marker::Model;

/// A report that was refused: why, of which process, and the value that was expected, where there is one.
#[derive(Drop)]
pub struct No {
    pub code: Code,
    pub name: Option<Name>,
    pub value: Option<Text>,
}

/// A report that was not refused, with the front then.
#[derive(Clone, Copy, Debug, PartialEq, Eq)]
pub enum Admitted {
    /// It was accepted, and the front counts it.
    Accepted(u32),
    /// It is the last accepted one of its process, or the `BEGIN` that was accepted: nothing changed.
    Old(u32),
}

/// A refusal whose process is named by reference, seen as the refusal: the tests hand it on many times, and a name is long.
#[derive(Drop)]
pub(crate) struct Refusal<'a> {
    pub(crate) code: Code,
    pub(crate) name: Option<&'a Name>,
    pub(crate) value: Option<Text>,
}

impl<'a> Model for Refusal<'a> {
    ghost use Rattle.std.specs.Prelude.{option_copied};
    ghost use Rattle.chains.specs.declared.refusal.No.{No};

    ghost Value = { No };

    ghost view = { λ r. record { code = r.code; name = option_copied r.name; value = r.value } };
}

impl<'a> Refusal<'a> {
    /// The refusal with a name of its own.
    pub(crate) fn named(self) -> No
        ensures { result ≡ self.entry }
    {
        let Refusal { code, name, value } = self;
        match name {
            None => No {
                code,
                name: None,
                value,
            },
            Some(name) => No {
                code,
                name: Some(name.copy()),
                value,
            },
        }
    }
}
