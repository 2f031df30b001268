//! The shape of a certificate as a JSON value. Nothing here takes memory.

ghost use Rattle.std.specs.Prelude.{◌≡◌, ◌≢◌, ◌↔◌, ◌<◌, ◌^◌, ℕ, List, All, Some, IsTrue, MatchOption};
ghost use Rattle.serde_json.specs.View.{view, items_view};
ghost use Rattle.chains.specs.declared.position.Position.{Position as AnyPosition};
ghost use Rattle.serde_json.specs.Data.{Items, array, string, number, unsigned};
ghost use Rattle.serde_json.specs.Events.{members_len};
ghost use Rattle.serde_json.specs.Find.{as_object, get};
ghost use Rattle.std.specs.Option.{option_map};
ghost use Rattle.chains.specs.Processes.{Name};
ghost use Rattle.reasons.specs.CertificateReading.{NamedPlace, IsSmall, HasSmallPosition, items_by, position_data, place_data, places_data};
ghost use Rattle.reasons.specs.working.Reading.{AnyName, IsText, IsPlace, ArePlaces, IsCertificate};

use chains::Position;
use serde_json::Value;

/// The position that a value stands for.
fn position_of(value: &Value) -> Option<Position>
    ensures { MatchOption result ((k : AnyPosition) → IsSmall k → view value.now ≢ position_data k) (λ k. IsSmall k × (view value.now ≡ position_data k)) }
{
    match value {
        Value::Number(number) => match number.as_u64() {
            Some(k) if k <= u32::MAX as u64 => Some(Position::At(k as u32)),
            _ => None,
        },
        Value::String(word) => if word.as_str() == "retired" {
            Some(Position::Retired)
        } else {
            None
        },
        _ => None,
    }
}

/// The number that a value stands for as a front.
pub(crate) fn front_of(value: &Value) -> Option<u64>
    ensures { MatchOption result ((n : ℕ) → n < 2 ^ 64 → view value.now ≢ number (unsigned n)) (λ n. view value.now ≡ number (unsigned n)) }
{
    match value {
        Value::Number(number) => number.as_u64(),
        _ => None,
    }
}

fn is_front(value: &Value) -> bool
    ensures { IsTrue result ↔ ((n : ℕ) × (n < 2 ^ 64) × (view value.now ≡ number (unsigned n))) }
{
    match front_of(value) {
        None => false,
        Some(_) => true,
    }
}

/// The values in a list.
pub(crate) fn list_of(value: &Value) -> Option<&[Value]>
    ensures { MatchOption result ((items : Items) → view value.now ≢ array items) (λ list. view value.now ≡ array (items_view list.now)) }
{
    match value {
        Value::Array(list) => Some(list.as_slice()),
        _ => None,
    }
}

/// The name and the position that a value stands for as a place.
pub(crate) fn named_place(value: &Value) -> Option<(&str, Position)>
    ensures { MatchOption result ((x : NamedPlace) → HasSmallPosition x → view value.now ≢ place_data x)
        (λ x. IsSmall x.1 × (view value.now ≡ place_data (record { name = x.0.now; position = x.1 }))) }
{
    let entry = list_of(value)?;
    if entry.len() != 2 {
        return None;
    }
    let name = entry[0].as_str()?;
    let position = position_of(&entry[1])?;
    Some((name, position))
}

fn is_place(value: &Value) -> bool
    ensures { IsTrue result ↔ IsPlace (view value.now) }
{
    match named_place(value) {
        None => false,
        Some(_) => true,
    }
}

fn is_text(value: &Value) -> bool
    ensures { IsTrue result ↔ IsText (view value.now) }
{
    value.is_string()
}

fn are_texts(value: &Value) -> bool
    ensures { IsTrue result ↔ ((names : List Name) × All AnyName names × (view value.now ≡ array (items_by string names))) }
{
    let Some(list) = list_of(value) else {
        return false;
    };
    for name in list {
        if !is_text(name) {
            return false;
        }
    }
    true
}

fn are_places(value: &Value) -> bool
    ensures { IsTrue result ↔ ArePlaces (view value.now) }
{
    let Some(list) = list_of(value) else {
        return false;
    };
    for place in list {
        if !is_place(place) {
            return false;
        }
    }
    true
}

fn are_chains(value: &Value) -> bool
    ensures { IsTrue result ↔ ((chains : List (List NamedPlace)) × All (All HasSmallPosition) chains × (view value.now ≡ array (items_by places_data chains))) }
{
    let Some(list) = list_of(value) else {
        return false;
    };
    for chain in list {
        if !are_places(chain) {
            return false;
        }
    }
    true
}

/// How many members an object has.
#[tactic(auto, using(crate::proofs::InLists::count_is))]
fn member_count(value: &Value) -> usize
    ensures { (result ≡ 4) ↔ (option_map members_len (as_object (view value.now)) ≡ Some 4) }
{
    match value.as_object() {
        None => 0,
        Some(members) => members.len(),
    }
}

fn has_texts(value: &Value, key: &str) -> bool
    ensures { IsTrue result ↔ ((names : List Name) × All AnyName names × (get key.now (view value.now) ≡ Some (array (items_by string names)))) }
{
    match value.get(key) {
        None => false,
        Some(part) => are_texts(part),
    }
}

fn has_front(value: &Value, key: &str) -> bool
    ensures { IsTrue result ↔ ((front : ℕ) × (front < 2 ^ 64) × (get key.now (view value.now) ≡ Some (number (unsigned front)))) }
{
    match value.get(key) {
        None => false,
        Some(part) => is_front(part),
    }
}

fn has_places(value: &Value, key: &str) -> bool
    ensures { IsTrue result ↔ ((places : List NamedPlace) × All HasSmallPosition places × (get key.now (view value.now) ≡ Some (places_data places))) }
{
    match value.get(key) {
        None => false,
        Some(part) => are_places(part),
    }
}

fn has_chains(value: &Value, key: &str) -> bool
    ensures { IsTrue result ↔ ((chains : List (List NamedPlace)) × All (All HasSmallPosition) chains × (get key.now (view value.now) ≡ Some (array (items_by places_data chains)))) }
{
    match value.get(key) {
        None => false,
        Some(part) => are_chains(part),
    }
}

/// Whether a value has the shape of a certificate, whole.
pub(crate) fn is_certificate(value: &Value) -> bool
    ensures { IsTrue result ↔ IsCertificate (view value.now) }
{
    if member_count(value) != 4 {
        return false;
    }
    if !has_texts(value, "failed") {
        return false;
    }
    if !has_front(value, "front") {
        return false;
    }
    if !has_places(value, "line") {
        return false;
    }
    has_chains(value, "reasons")
}
