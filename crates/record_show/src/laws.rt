//! What holds of the texts.

ghost use Rattle.std.specs.Prelude.{◌≡◌, ◌∷◌, ◌++◌, [], ℕ, List, IsTrue};
ghost use Rattle.report_line.specs.Names.{is_name};
ghost use Rattle.record_show.specs.Strings.{string};

/// A name stands between its double quotes as it is.
pub fn names_need_no_escapes()
    ensures { (name : List ℕ) → IsTrue (is_name name) → string name ≡ 34 ∷ (name ++ 34 ∷ []) }
{}
