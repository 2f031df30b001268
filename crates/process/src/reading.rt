//! Words as the parts of what they spell. No word behind a wrong one is looked at.

ghost use Rattle.std.specs.Prelude.{◌≡◌, ◌≢◌, ◌∷◌, [], ℕ, List, false, IsTrue};
ghost use Rattle.std.specs.Fmt.{decimal};
ghost use Rattle.event_tree.specs.NormalForm.{IsEvents};
ghost use Rattle.event_tree.specs.Spelling as events;
ghost use Rattle.stamp.specs.Stamps.{IsStamp, stamp_text};
ghost use Rattle.report_line.specs.Reading.{Finds, Takes};
ghost use Rattle.process.specs.Texts.{IsNumber, IsProcess, IsMessage, IsStart, IsRetirement, process_words, message_words, start_words, retirement_words};

use crate::handed::{Message, Retirement, Start};
use crate::process::Process;
use event_tree::{Events, EventsFault};
use report_line::{LineFault, Words, number_in, read_stamp, take_name};
use stamp::Stamp;
use std::alloc::Global;

// Takes the word that says what is spelled, if it is the one that is wanted.
fn take_kind(words: &mut Words<'_>, kind: &[u8]) -> bool
    ensures yes { IsTrue result → words.old ≡ kind.now ∷ words.new }
    ensures no { result ≡ false → (rest : List (List ℕ)) → words.old ≢ kind.now ∷ rest }
{
    match words.next() {
        None => false,
        Some(word) => word == kind,
    }
}

fn take_number(words: &mut Words<'_>) -> Result<u32, LineFault>
    ensures { Takes result IsNumber decimal words.old words.new }
{
    let Some(word) = words.next() else {
        return Err(LineFault::Grammar);
    };
    match number_in(word) {
        Some(number) => Ok(number),
        None => Err(LineFault::Grammar),
    }
}

fn read_events(alloc: Global, word: &[u8]) -> Result<Events, LineFault>
    ensures { Finds result (λ e. IsEvents e × (word.now ≡ events.spelling e)) }
{
    match Events::parse(alloc, word) {
        Ok(events) => {
            events.recall_facts();
            Ok(events)
        }
        Err(EventsFault::Memory) => Err(LineFault::Memory),
        Err(_) => Err(LineFault::Grammar),
    }
}

// The stamp that is the only word left.
fn last_stamp(alloc: Global, words: &mut Words<'_>) -> Result<Stamp, LineFault>
    ensures { Finds result (λ s. IsStamp s × (words.old ≡ stamp_text s ∷ [])) }
{
    let Some(word) = words.next() else {
        return Err(LineFault::Grammar);
    };
    if !words.is_empty() {
        return Err(LineFault::Grammar);
    }
    read_stamp(alloc, word)
}

// The events that are the only word left.
fn last_events(alloc: Global, words: &mut Words<'_>) -> Result<Events, LineFault>
    ensures { Finds result (λ e. IsEvents e × (words.old ≡ events.spelling e ∷ [])) }
{
    let Some(word) = words.next() else {
        return Err(LineFault::Grammar);
    };
    if !words.is_empty() {
        return Err(LineFault::Grammar);
    }
    read_events(alloc, word)
}

pub(crate) fn read_process(alloc: Global, words: &mut Words<'_>) -> Result<Process, LineFault>
    ensures { Finds result (λ p. IsProcess p × (words.old ≡ process_words p)) }
{
    if !take_kind(words, b"process") {
        return Err(LineFault::Grammar);
    }
    let Some(name) = take_name(words) else {
        return Err(LineFault::Grammar);
    };
    let epoch = take_number(words)?;
    let reports = take_number(words)?;
    let stamp = last_stamp(alloc, words)?;
    Ok(Process {
        name,
        epoch,
        reports,
        stamp,
    })
}

pub(crate) fn read_message(alloc: Global, words: &mut Words<'_>) -> Result<Message, LineFault>
    ensures { Finds result (λ m. IsMessage m × (words.old ≡ message_words m)) }
{
    if !take_kind(words, b"message") {
        return Err(LineFault::Grammar);
    }
    let epoch = take_number(words)?;
    let events = last_events(alloc, words)?;
    Ok(Message { epoch, events })
}

pub(crate) fn read_start(alloc: Global, words: &mut Words<'_>) -> Result<Start, LineFault>
    ensures { Finds result (λ s. IsStart s × (words.old ≡ start_words s)) }
{
    if !take_kind(words, b"start") {
        return Err(LineFault::Grammar);
    }
    let Some(child) = take_name(words) else {
        return Err(LineFault::Grammar);
    };
    let epoch = take_number(words)?;
    let stamp = last_stamp(alloc, words)?;
    Ok(Start {
        child,
        epoch,
        stamp,
    })
}

pub(crate) fn read_retirement(alloc: Global, words: &mut Words<'_>) -> Result<Retirement, LineFault>
    ensures { Finds result (λ r. IsRetirement r × (words.old ≡ retirement_words r)) }
{
    if !take_kind(words, b"retirement") {
        return Err(LineFault::Grammar);
    }
    let Some(process) = take_name(words) else {
        return Err(LineFault::Grammar);
    };
    let epoch = take_number(words)?;
    let Some(target) = take_name(words) else {
        return Err(LineFault::Grammar);
    };
    let stamp = last_stamp(alloc, words)?;
    Ok(Retirement {
        process,
        epoch,
        target,
        stamp,
    })
}
