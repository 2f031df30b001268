//! Certificates as they are read.

ghost use Rattle.std.specs.Prelude.{◌≡◌, ◌∷◌, [], List, Some, None, map, flat_map, All, MatchOption, MatchResult};
ghost use Rattle.chains.specs.Processes.{Name as AnyName};
ghost use Rattle.chains.specs.Elements.{name_of};
ghost use Rattle.serde_json.specs.Data.{array, string};
ghost use Rattle.serde_json.specs.Find.{get};
ghost use Rattle.serde_json.specs.View.{view};
ghost use Rattle.reasons.specs.CertificateReading.{NamedPlace, NamedCertificate, HasSmallPosition, place_data, places_data, items_by, place_named, names_in, IsNameKnown, IsValueOf, IsNumbered, IsReadAs};
ghost use Rattle.reasons.specs.working.Reading.{ReadsAs};

use crate::certificate::{Certificate, Numbers, Reasons};
use crate::fault::CertificateFault;
use crate::shape::{front_of, is_certificate, list_of, named_place};
use chains::{Chains, Place, Places};
use report_line::Name;
use serde_json::Value;

/// The number of the process of a name, if it is one and a process has it.
fn known_number(chains: &Chains, text: &str) -> Option<u32>
    ensures { MatchOption result (¬ IsNameKnown chains.now.accepted text.now) (λ p. IsNameKnown chains.now.accepted text.now × (name_of chains.now.accepted p ≡ Some text.now)) }
{
    let name = Name::from_bytes(text.as_bytes())?;
    chains.number_of(&name)
}

/// The number of the process of a name.
fn number_of(chains: &Chains, text: &str) -> Result<u32, CertificateFault>
    ensures { ReadsAs chains.now.accepted (text.now ∷ []) (λ p. name_of chains.now.accepted p ≡ Some text.now) result }
{
    match known_number(chains, text) {
        Some(number) => Ok(number),
        None => Err(CertificateFault::Unknown(String::from_str(chains.alloc(), text)?)),
    }
}

fn number_in(chains: &Chains, value: &Value) -> Result<u32, CertificateFault>
    ensures { (name : AnyName) → view value.now ≡ string name → ReadsAs chains.now.accepted (name ∷ []) (λ p. name_of chains.now.accepted p ≡ Some name) result }
{
    match value.as_str() {
        None => Err(CertificateFault::Shape),
        Some(text) => number_of(chains, text),
    }
}

fn place_in(chains: &Chains, value: &Value) -> Result<Place, CertificateFault>
    ensures { (x : NamedPlace) → HasSmallPosition x → view value.now ≡ place_data x → ReadsAs chains.now.accepted (x.name ∷ []) (λ y. place_named chains.now.accepted y ≡ Some x) result }
{
    match named_place(value) {
        None => Err(CertificateFault::Shape),
        Some((name, position)) => {
            let process = number_of(chains, name)?;
            Ok(Place { process, position })
        }
    }
}

fn numbers_in(chains: &Chains, value: &Value) -> Result<Vec<u32>, CertificateFault>
    ensures { (names : List AnyName) → view value.now ≡ array (items_by string names) → ReadsAs chains.now.accepted names (λ v. map (name_of chains.now.accepted) v.items ≡ map Some names) result }
{
    let Some(list) = list_of(value) else {
        return Err(CertificateFault::Shape);
    };
    let mut numbers = Vec::with_capacity(chains.alloc(), list.len())?;
    for name in list {
        let number = number_in(chains, name)?;
        numbers.push(number)?;
    }
    Ok(numbers)
}

fn places_in(chains: &Chains, value: &Value) -> Result<Vec<Place>, CertificateFault>
    ensures { (xs : List NamedPlace) → All HasSmallPosition xs → view value.now ≡ places_data xs → ReadsAs chains.now.accepted (map (λ x. x.name) xs) (λ v. map (place_named chains.now.accepted) v.items ≡ map Some xs) result }
{
    let Some(list) = list_of(value) else {
        return Err(CertificateFault::Shape);
    };
    let mut places = Vec::with_capacity(chains.alloc(), list.len())?;
    for entry in list {
        let place = place_in(chains, entry)?;
        places.push(place)?;
    }
    Ok(places)
}

fn reasons_in(chains: &Chains, value: &Value) -> Result<Reasons, CertificateFault>
    ensures { (xs : List (List NamedPlace)) → All (All HasSmallPosition) xs → view value.now ≡ array (items_by places_data xs)
        → ReadsAs chains.now.accepted (flat_map (λ chain. map (λ x. x.name) chain) xs) (λ v. map (λ chain. map (place_named chains.now.accepted) chain) v ≡ map (λ chain. map Some chain) xs) result }
{
    let Some(list) = list_of(value) else {
        return Err(CertificateFault::Shape);
    };
    let mut reasons = Reasons::new(chains.alloc());
    for entry in list {
        let chain = places_in(chains, entry)?;
        reasons.push(Places::from_vec(chain))?;
    }
    Ok(reasons)
}

/// The member of an object.
fn member<'a>(value: &'a Value, key: &str) -> Result<&'a Value, CertificateFault>
    ensures { MatchResult result (λ part. get key.now (view value.now) ≡ Some (view part.now)) (λ e. get key.now (view value.now) ≡ None) }
{
    match value.get(key) {
        None => Err(CertificateFault::Shape),
        Some(part) => Ok(part),
    }
}

fn certificate_in(chains: &Chains, value: &Value) -> Result<Certificate, CertificateFault>
    ensures { (named : NamedCertificate) → IsValueOf (view value.now) named → ReadsAs chains.now.accepted (names_in named) (IsNumbered chains.now.accepted named) result }
{
    let failed = numbers_in(chains, member(value, "failed")?)?;
    let line = places_in(chains, member(value, "line")?)?;
    let reasons = reasons_in(chains, member(value, "reasons")?)?;
    match front_of(member(value, "front")?) {
        None => Err(CertificateFault::Shape),
        Some(front) => Ok(Certificate {
            failed: Numbers::from_vec(failed),
            front,
            line: Places::from_vec(line),
            reasons,
        }),
    }
}

/// The certificate of which the bytes are a text: any JSON text of that shape, in whatever order its members stand. A text
/// that is not JSON is told of first, then one of another shape, then the first name that no process has. `Memory` may come
/// in place of any, where a growth was refused.
pub fn from_json(chains: &Chains, bytes: &[u8]) -> Result<Certificate, CertificateFault>
    ensures { IsReadAs chains.now.accepted bytes.now result }
{
    let value = match Value::from_slice(chains.alloc(), bytes) {
        Ok(value) => value,
        Err(error) => return Err(if error.is_memory() {
            CertificateFault::Memory
        } else {
            CertificateFault::NotJson
        }),
    };
    if !is_certificate(&value) {
        return Err(CertificateFault::Shape);
    }
    certificate_in(chains, &value)
}
