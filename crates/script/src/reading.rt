//! Lines as steps.

ghost use Rattle.std.specs.Prelude.{◌≡◌, ◌≢◌, ◌∷◌, [], IsTrue, List, ℕ, MatchOption, codes};
ghost use Rattle.report_line.specs.Names.{is_name};
ghost use Rattle.report_line.specs.Cuts.{words_in};
ghost use Rattle.driver.specs.declared.step.Step.{Step as AnyStep};
ghost use Rattle.script.specs.Spelling.{FindsOne, SpellsRoot, SpellsStep, SpellsSettle};
ghost use Rattle.script.specs.working.Spelling.{IsActOf, IsRootOf, IsStepOf};

use driver::{Step, StepRequest};
use report_line::{Name, Words, take_name};

// The name that is the only word left.
fn last_name(words: &mut Words<'_>) -> Option<Name>
    ensures { FindsOne result (λ p. IsTrue (is_name p) × (words.old ≡ p ∷ [])) }
{
    let Some(name) = take_name(words) else {
        return None;
    };
    if words.is_empty() { Some(name) } else { None }
}

// The request of this word and of the one name that is left.
fn read_named(kind: &[u8], words: &mut Words<'_>) -> Option<StepRequest>
    requires work { kind.now ≢ codes "work" }
    requires check { kind.now ≢ codes "check" }
    requires present { kind.now ≢ codes "present" }
    ensures { FindsOne result (IsActOf kind.now words.old) }
{
    let Some(name) = last_name(words) else {
        return None;
    };
    if kind == b"send".as_slice() {
        Some(StepRequest::Send { message: name })
    } else if kind == b"receive".as_slice() {
        Some(StepRequest::Receive { message: name })
    } else if kind == b"fork".as_slice() {
        Some(StepRequest::Fork { child: name })
    } else if kind == b"retire".as_slice() {
        Some(StepRequest::Retire { target: name })
    } else if kind == b"absorb".as_slice() {
        Some(StepRequest::Absorb { retired: name })
    } else {
        None
    }
}

// This request, where no word is left.
fn alone(asked: StepRequest, words: &Words<'_>) -> Option<StepRequest>
    ensures { MatchOption result (words.now ≢ []) (λ a. (a ≡ asked) × (words.now ≡ [])) }
{
    if words.is_empty() { Some(asked) } else { None }
}

// The request of this word and of the names that are left.
fn read_request(kind: &[u8], words: &mut Words<'_>) -> Option<StepRequest>
    ensures { FindsOne result (IsActOf kind.now words.old) }
{
    if kind == b"work".as_slice() {
        alone(StepRequest::Work, words)
    } else if kind == b"check".as_slice() {
        alone(StepRequest::Check, words)
    } else if kind == b"present".as_slice() {
        alone(StepRequest::Present, words)
    } else {
        read_named(kind, words)
    }
}

// The step of these words.
fn step_of(words: &mut Words<'_>) -> Option<Step>
    ensures { FindsOne result (IsStepOf words.old) }
{
    let Some(kind) = words.next() else {
        return None;
    };
    let Some(process) = take_name(words) else {
        return None;
    };
    let Some(request) = read_request(kind, words) else {
        return None;
    };
    Some(Step { process, request })
}

// The root of these words.
fn root_of(words: &mut Words<'_>) -> Option<Name>
    ensures { FindsOne result (IsRootOf words.old) }
{
    let Some(kind) = words.next() else {
        return None;
    };
    if kind != b"root".as_slice() {
        return None;
    }
    last_name(words)
}

/// The root of the world that this line begins.
pub fn read_root(line: &[u8]) -> Option<Name>
    ensures { FindsOne result (λ p. SpellsRoot p line.now) }
{
    let mut words = Words::of(line);
    root_of(&mut words)
}

/// The step of which this is the line.
pub fn read_step(line: &[u8]) -> Option<Step>
    ensures { FindsOne result (λ s. SpellsStep s line.now) }
{
    let mut words = Words::of(line);
    step_of(&mut words)
}

/// No line is that of two steps, nor that of two settlements; and none is of two of these kinds: it begins a world, is a step, or
/// settles.
pub fn a_line_has_one_step()
    ensures step { (line : List ℕ) (s t : AnyStep) → SpellsStep s line → SpellsStep t line → s ≡ t }
    ensures root { (line : List ℕ) (p : List ℕ) (s : AnyStep) → SpellsRoot p line → ¬ SpellsStep s line }
    ensures settle { (line : List ℕ) (names others : List (List ℕ)) → SpellsSettle names line → SpellsSettle others line → names ≡ others }
    ensures settle_or_step { (line : List ℕ) (names : List (List ℕ)) (s : AnyStep) → SpellsSettle names line → ¬ SpellsStep s line }
    ensures settle_or_root { (line : List ℕ) (names : List (List ℕ)) (p : List ℕ) → SpellsSettle names line → ¬ SpellsRoot p line }
{}
