//! The first records of a file alone.

ghost use Rattle.std.specs.Prelude.{◌≡◌, ◌<◌, ◌≤◌, ◌++◌, [], ◌∷◌, ℕ, List, IfOk, IfErr, length, take};
ghost use Rattle.record_file.specs.File.{Said, Stands, IsForeign, IsDamaged};
ghost use Rattle.earlier_file.specs.Earlier.{IsFirst, IsReadAsFirst, IsRefusedAt};
ghost use Rattle.earlier_file.specs.Cuts.{IsCutAt};

use crate::fault::EarlierFault;
use crate::walking::gate_behind;
use std::alloc::{AllocError, Global};

/// A file of at most so many bytes has no records, whatever they are.
pub(crate) const NEW: usize = 9;

/// The file of no records, as one is made.
const EMPTY: [u8; 9] = *b"RECLINE2\0";

/// A closed gate.
const CLOSED: u8 = 0;

/// The front of a file, and a closed gate behind it.
fn closed_at(alloc: Global, file: &[u8], at: usize) -> Result<Vec<u8>, AllocError>
    requires { at < length file.now }
    ensures { IfOk result (λ earlier. earlier.items ≡ take at file.now ++ 0 ∷ []) }
{
    let mut earlier = Vec::with_capacity(alloc, at + 1)?;
    earlier.extend_from_slice(&file[..at])?;
    earlier.push(CLOSED)?;
    Ok(earlier)
}

/// The first records of a file that has none: none.
fn first_of_none(alloc: Global, front: usize) -> Result<Vec<u8>, EarlierFault>
    ensures ok { (file : List ℕ) → length file ≤ 9 → IfOk result (λ earlier. IsFirst front file earlier.items) }
    ensures refused { (file : List ℕ) → length file ≤ 9 → IfErr result (IsRefusedAt front file) }
{
    if front > 0 {
        return Err(EarlierFault::Short(0));
    }
    Ok(EMPTY.to_vec(alloc)?)
}

/// Where the gate stands behind the first records of a file.
fn cut_at(file: &[u8], front: usize) -> Result<usize, EarlierFault>
    requires { 10 ≤ length file.now }
    ensures ok { IfOk result (IsCutAt front file.now) }
    ensures refused { IfErr result (IsRefusedAt front file.now) }
{
    let gate = gate_behind(file, front)?;
    if gate.count < front {
        return Err(EarlierFault::Short(gate.count));
    }
    Ok(gate.at)
}

/// The first records of a file.
fn cut(alloc: Global, file: &[u8], front: usize) -> Result<Vec<u8>, EarlierFault>
    ensures ok { IfOk result (λ earlier. IsFirst front file.now earlier.items) }
    ensures refused { IfErr result (IsRefusedAt front file.now) }
{
    if file.len() <= NEW {
        return first_of_none(alloc, front);
    }
    let at = cut_at(file, front)?;
    Ok(closed_at(alloc, file, at)?)
}

/// The file that had the first records of this one and no more: they as they stand there, with the same header and version, and a closed
/// gate behind them. One of at most 9 bytes has none.
pub fn first_records(alloc: Global, file: &[u8], front: usize) -> Result<Vec<u8>, EarlierFault>
    ensures ok { IfOk result (λ earlier. IsFirst front file.now earlier.items) }
    ensures read { IfOk result (λ earlier. IsReadAsFirst front file.now earlier.items) }
    ensures refused { IfErr result (IsRefusedAt front file.now) }

    // Each fault comes where it has to, and want of memory alone comes otherwise: damage behind the first records is none.
    ensures foreign { IsForeign file.now → result ≡ Err EarlierFault.Foreign }
    ensures damaged { (k : ℕ) → k ≤ front → IsDamaged k file.now → result ≡ Err (EarlierFault.Damaged k) }
    ensures short { (said : List Said) → Stands said file.now → length said < front → result ≡ Err (EarlierFault.Short (length said)) }
    ensures kept { (said : List Said) → Stands said file.now → front ≤ length said → IfErr result (λ e. e ≡ EarlierFault.Memory) }
    ensures behind { (k : ℕ) → front < k → IsDamaged k file.now → IfErr result (λ e. e ≡ EarlierFault.Memory) }
{
    cut(alloc, file, front)
}
