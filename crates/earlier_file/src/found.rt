//! What the bytes of a record file tell of it.

ghost use Rattle.std.specs.Prelude.{◌≡◌, ℕ, List, IfOk, IfErr, MatchResult, length};
ghost use Rattle.record_file.specs.File.{Said, Stands, IsForeign, IsDamaged};
ghost use Rattle.earlier_file.specs.Facts.{AreFacts, IsUnread};

use crate::cutting::NEW;
use crate::fault::FileFault;
use crate::walking::gate_behind;

/// The byte of the header that tells the second version in a file that is made.
const SECOND_VERSION: u8 = b'2';

/// What the bytes of a record file tell of it.
#[derive(Clone, Copy, Debug, PartialEq, Eq)]
pub struct FileFacts {
    /// The byte of its header: `1` is the first version, and each other one the second.
    pub version: u8,
    /// How many records it has.
    pub records: usize,
    /// How many bytes stand behind its closed gate.
    pub tail: usize,
}

/// The facts of a file, up to its closed gate.
fn read_facts(file: &[u8]) -> Result<FileFacts, FileFault>
    ensures ok { IfOk result (AreFacts file.now) }
    ensures refused { IfErr result (IsUnread file.now) }
{
    if file.len() <= NEW {
        return Ok(FileFacts {
            version: SECOND_VERSION,
            records: 0,
            tail: 0,
        });
    }
    // A record takes more than one byte, so there are fewer of them.
    let gate = gate_behind(file, file.len())?;
    Ok(FileFacts {
        version: gate.version,
        records: gate.count,
        tail: file.len() - gate.at - 1,
    })
}

/// What the bytes of a record file tell of it. One of at most 9 bytes is taken for a new one.
pub fn facts(file: &[u8]) -> Result<FileFacts, FileFault>
    ensures ok { IfOk result (AreFacts file.now) }
    ensures refused { IfErr result (IsUnread file.now) }

    // Each outcome comes where it has to.
    ensures stands { (said : List Said) → Stands said file.now → MatchResult result (λ told. told.records ≡ length said) (λ _. ⊥) }
    ensures foreign { IsForeign file.now → result ≡ Err FileFault.Foreign }
    ensures damaged { (k : ℕ) → IsDamaged k file.now → result ≡ Err (FileFault.Damaged k) }
{
    read_facts(file)
}
