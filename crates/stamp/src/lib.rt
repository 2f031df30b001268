//! Stamps of interval tree clocks (Almeida, Baquero, Fonte 2008), over ids and event trees.
#![tactic(auto)]

ghost use Rattle.std.specs.Prelude.{◌≡◌, IsTrue};
ghost use Rattle.std.specs.List.{list_all};
ghost use Rattle.stamp.specs.declared.stamp.Stamp.{Stamp as AnyStamp};
ghost use Rattle.stamp.specs.Stamps.{IsStamp, stamp_text, is_stamp_byte};

mod fault;
mod operations;
mod stamp;

pub use fault::{StampFault, StampTextFault};
pub use stamp::Stamp;

/// Each byte of a text is `(`, `)`, `,`, `;` or a digit: no space, no line feed.
pub fn texts_of_stamps_are_plain()
    ensures { (s : AnyStamp) → IsStamp s → IsTrue (list_all is_stamp_byte (stamp_text s)) }
{}

/// No text is that of two stamps.
pub fn a_stamp_has_one_text()
    ensures { (s t : AnyStamp) → IsStamp s → IsStamp t → stamp_text s ≡ stamp_text t → s ≡ t }
{}
