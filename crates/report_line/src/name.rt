//! Names of processes.

ghost use Rattle.std.specs.Prelude.{◌≡◌, ◌≤◌, List, ℕ, nat_eq, IsTrue, MatchOption, false, take, length};
ghost use Rattle.std.specs.List.{list_all};
ghost use Rattle.std.specs.Cmp.{on_equiv, on_per, partial_equiv_from_equiv};
ghost use Rattle.std.specs.Cmp.Lexicographic.{pointwise, nat_list_eq_equiv};
ghost use Rattle.std.specs.Cmp.Rules.{hashing};
ghost use Rattle.std.specs.Hash as fed;
ghost use Rattle.std.proofs.Common.{rules};
ghost use Rattle.report_line.specs.Names.{is_letter, is_name_byte, is_name};

use std::hash::{Hash, Hasher};
use std::marker::Model;

#[tactic(auto, unfolding(crate::specs::Names::is_letter))]
fn is_letter(b: u8) -> bool
    ensures { result ≡ is_letter b }
{
    b'a' <= b && b <= b'z'
}

#[tactic(auto, unfolding(crate::specs::Names::is_name_byte))]
fn is_name_byte(b: u8) -> bool
    ensures { result ≡ is_name_byte b }
{
    is_letter(b) || (b'0' <= b && b <= b'9') || b == b'_' || b == b'-'
}

fn are_name_bytes(bytes: &[u8]) -> bool
    ensures { result ≡ list_all is_name_byte bytes.now }
{
    bytes.iter().all(|b| is_name_byte(*b))
}

/// Whether the bytes are a name: 1 to 32 of `a` to `z`, `0` to `9`, `_` and `-`, the first a letter.
#[tactic(auto, unfolding(crate::specs::Names::is_name))]
pub fn is_name(bytes: &[u8]) -> bool
    ensures { result ≡ is_name bytes.now }
{
    match bytes {
        [] => false,
        [first, rest @ ..] => is_letter(*first) && rest.len() <= 31 && are_name_bytes(rest),
    }
}

// The bytes, at the front of 32.
fn padded(bytes: &[u8]) -> [u8; 32]
    requires { length bytes.now ≤ 32 }
    ensures { take (length bytes.now) result ≡ bytes.now }
{
    let mut text = [0; 32];
    text[..bytes.len()].copy_from_slice(bytes);
    text
}

/// The name of a process, seen as its bytes. It takes no memory.
#[derive(Debug, Drop)]
pub struct Name {
    length: u8,
    text: [u8; 32],
}

impl Model for Name {
    ghost use Rattle.std.specs.Prelude.{List, ℕ, ◌≤◌, IsTrue, take};
    ghost use Rattle.report_line.specs.Names.{is_name};

    ghost Value = { List ℕ };

    ghost view = { λ n. take n.length n.text };

    ghost invariant = { λ n. (n.length ≤ 32) × IsTrue (is_name (take n.length n.text)) };
}

impl Name {
    /// The name of these bytes, if they are one.
    pub fn from_bytes(bytes: &[u8]) -> Option<Name>
        ensures { MatchOption result (is_name bytes.now ≡ false) (λ n. (n ≡ bytes.now) × IsTrue (is_name bytes.now)) }
    {
        if is_name(bytes) {
            Some(name_of(bytes))
        } else {
            None
        }
    }

    /// The bytes of the name.
    pub fn as_bytes(&self) -> &[u8]
        ensures value { result.now ≡ self.now }
        ensures name { IsTrue (is_name self.now) }
    {
        &self.text[..self.length as usize]
    }

    /// The same name once more.
    pub fn copy(&self) -> Name
        ensures { result ≡ self.now }
    {
        Name {
            text: self.text,
            length: self.length,
        }
    }
}

/// The name that these bytes are. They are not tested.
#[tactic(auto, using(crate::proofs::Plain::short_name))]
pub fn name_of(bytes: &[u8]) -> Name
    requires { IsTrue (is_name bytes.now) }
    ensures { result ≡ bytes.now }
{
    let text = padded(bytes);
    Name {
        text,
        length: bytes.len() as u8,
    }
}

impl PartialEq for Name {
    ghost eq = { pointwise nat_eq };

    ghost laws = { partial_equiv_from_equiv nat_list_eq_equiv };

    fn eq(&self, other: &Name) -> bool {
        self.as_bytes() == other.as_bytes()
    }
}

impl Eq for Name {
    ghost laws = { nat_list_eq_equiv };
}

impl Hash for Name {
    ghost hash_input = { fed.slice fed.u8 };

    ghost respects_eq = { Prim.search (hashing, rules) };

    fn hash<H: Hasher>(&self, state: &mut H) {
        self.as_bytes().hash(state);
    }
}
