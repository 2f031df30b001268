//! How the text of an id is written: its length is known first, so that there is room for all of it.

ghost use Rattle.std.specs.Prelude.{◌≡◌, ◌≤◌, ◌+◌, ◌++◌, length, vec_len, vec_capacity};
ghost use Rattle.id_tree.specs.Spelling.{spelling};
ghost use Rattle.id_tree.specs.working.Marks.{tree_of, AreMarksOf, HasTrees, IsBehind};

use crate::marks::Mark;

// How many bytes the text has: one for each leaf, three for each pair, and there is a leaf more than pairs.
pub fn text_length(marks: &[Mark]) -> usize
    requires { AreMarksOf (tree_of marks.now) marks.now }
    ensures { result ≡ length (spelling (tree_of marks.now)) }
{
    marks.len() * 2 - 1
}

// Appends the text of the first tree, for which there is room, and gives the marks behind it.
#[tactic(auto, using(crate::proofs::Preorder::behind_leaf))]
pub fn write_first<'a>(marks: &'a [Mark], out: &mut Vec<u8>) -> &'a [Mark]
    requires whole { HasTrees 1 marks.now }
    requires room { vec_len out.old + length (spelling (tree_of marks.now)) ≤ vec_capacity out.old }
    ensures text { out.new.items ≡ out.old.items ++ spelling (tree_of marks.now) }
    ensures capacity { vec_capacity out.new ≡ vec_capacity out.old }
    ensures behind { IsBehind marks.now result.now }
{
    let (_, inside) = marks.split_at(1);
    match marks[0] {
        Mark::Zero => {
            out.push_reserved(b'0');
            inside
        }
        Mark::One => {
            out.push_reserved(b'1');
            inside
        }
        Mark::Pair => {
            out.push_reserved(b'(');
            let right = write_first(inside, out);
            out.push_reserved(b',');
            let behind = write_first(right, out);
            out.push_reserved(b')');
            behind
        }
    }
}
