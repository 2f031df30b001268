//! What a record file holds, as texts.

ghost use Rattle.std.specs.Prelude.{◌≡◌, IfOk, option_copied};
ghost use Rattle.std.specs.Option.{option_map};
ghost use Rattle.chains.specs.Held.{held_of};
ghost use Rattle.record_file.specs.Kept.{said_in};
ghost use Rattle.record_show.specs.Processes.{shown_file, shown_processes};
ghost use Rattle.record_show.specs.Tables.{table_text};
ghost use Rattle.record_show.specs.Json.{json_text};

use crate::gathering::{shown_file, shown_processes};
use crate::json::json_of;
use crate::table::table_of;
use chains::Chains;
use earlier_file::FileFacts;
use std::alloc::AllocError;

/// The table for people: what the chains hold that were made of the records of a file, of which the bytes tell these facts.
pub fn to_table(chains: &Chains, facts: FileFacts) -> Result<Vec<u8>, AllocError>
    ensures { IfOk result (λ text. text.items ≡ table_text (shown_file (held_of chains.now) facts) (shown_processes chains.now.accepted)) }
{
    let processes = shown_processes(chains)?;
    table_of(chains.alloc(), shown_file(chains, facts), &processes)
}

/// The same as one object of JSON, with the records of the file, where they are asked for.
pub fn to_json(
    chains: &Chains,
    facts: FileFacts,
    asked: Option<&[(u32, Vec<u8>)]>,
) -> Result<Vec<u8>, AllocError>
    ensures { IfOk result (λ text. text.items ≡ json_text (shown_file (held_of chains.now) facts) (shown_processes chains.now.accepted) (option_map said_in (option_copied asked.entry))) }
{
    let processes = shown_processes(chains)?;
    json_of(chains.alloc(), shown_file(chains, facts), &processes, asked)
}
