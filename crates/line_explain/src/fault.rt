//! What is wrong with a line.

use crate::wanted::Wanted;

/// Why a text is that of no tree within the limits. Of several faults the first of this list is told.
#[derive(Clone, Copy, Debug, PartialEq, Eq)]
pub enum TreeFault {
    /// It spells no tree.
    NoText,
    /// A tree is not in normal form.
    NotNormal,
    /// A tree is deeper than 40.
    TooDeep,
}

/// Why a word is wrong.
#[derive(Clone, Copy, Debug, PartialEq, Eq)]
pub enum Why {
    /// The line ends in front of it.
    Missing(Wanted),
    /// It is empty: two spaces, or one at an end of the line, or an empty line.
    Empty,
    /// No call begins so.
    Kind,
    /// What stands behind the `@` is no epoch, or the call bears no mark.
    Mark,
    /// The call was whole before it.
    Extra,
    /// A name is wanted.
    Name,
    /// A number from 1 is wanted.
    Number,
    /// Names, or `-`, are wanted.
    Names,
    /// A stamp is wanted.
    Stamp(TreeFault),
    /// It is a stamp with a value above 4,294,967,295.
    TooLarge,
    /// An id is wanted.
    Id(TreeFault),
}

/// The first wrong word of a line.
#[derive(Clone, Copy, Debug, PartialEq, Eq)]
pub struct WrongWord {
    /// Its number, from 1.
    pub number: usize,
    /// What is wrong with it.
    pub why: Why,
}
