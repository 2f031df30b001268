//! Replies as they are written.

use super::answer::Answer;
use report_line::{Code, Reply, write_reply};

/// The cause of a refusal that a word names.
fn code_of(word: &str) -> Option<Code> {
    match word {
        "UnknownProcess" => Some(Code::UnknownProcess),
        "Ended" => Some(Code::Ended),
        "WrongNumber" => Some(Code::WrongNumber),
        "WrongId" => Some(Code::WrongId),
        "NotGrown" => Some(Code::NotGrown),
        "NameTaken" => Some(Code::NameTaken),
        "WrongParts" => Some(Code::WrongParts),
        "WrongTarget" => Some(Code::WrongTarget),
        "NotWaiting" => Some(Code::NotWaiting),
        "NotJoined" => Some(Code::NotJoined),
        "OtherRoot" => Some(Code::OtherRoot),
        "NothingBegun" => Some(Code::NothingBegun),
        "Full" => Some(Code::Full),
        "OutOfMemory" => Some(Code::OutOfMemory),
        _ => None,
    }
}

// The refusal for this cause that names nothing.
fn put_refusal(code: Code, out: &mut Answer) {
    let reply = Reply::No {
        code,
        name: None,
        value: None,
    };
    let text = write_reply(out.alloc(), &reply);
    out.put_made(text);
}

/// Answers a call on replies, which is a refusal that names nothing; whether the words are one.
pub fn answer(words: &[&str], out: &mut Answer) -> bool {
    let ["refusal", word] = *words else {
        return false;
    };
    match code_of(word) {
        Some(code) => put_refusal(code, out),
        None => return false,
    }
    true
}
