//! The words of a line, one by one.

ghost use Rattle.std.specs.Prelude.{◌≡◌, ◌≢◌, ◌+◌, ◌^◌, ◌<◌, [], length, IfOk};
ghost use Rattle.line_explain.specs.working.Shapes.{wanted_in, TellsOf, IsFirstWrongWord};

use crate::fault::{Why, WrongWord};
use crate::fitting::{misfit, told};
use crate::kind::{Shape, shape_of, wrong_kind};
use crate::wanted::Wanted;
use report_line::Words;
use std::alloc::{AllocError, Global};

// What is wrong behind the last word that is wanted.
fn surplus(words: &mut Words<'_>, number: usize) -> Option<WrongWord>
    ensures { TellsOf [] words.old number result }
{
    let word = words.next()?;
    Some(WrongWord {
        number,
        why: told(word, Why::Extra),
    })
}

// The first of the words that is not as it is wanted, where they are counted from this number.
fn wrong_field(
    alloc: Global,
    wanted: &[Wanted],
    words: &mut Words<'_>,
    number: usize,
) -> Result<Option<WrongWord>, AllocError>
    requires { length wanted.now + number < 2 ^ 32 }
    ensures { IfOk result (TellsOf wanted.now words.old number) }
{
    match wanted {
        [] => Ok(surplus(words, number)),
        [first, rest @ ..] => {
            let Some(word) = words.next() else {
                return Ok(Some(WrongWord {
                    number,
                    why: Why::Missing(*first),
                }));
            };
            match misfit(alloc, *first, word)? {
                Some(why) => Ok(Some(WrongWord {
                    number,
                    why: told(word, why),
                })),
                None => wrong_field(alloc, rest, words, number + 1),
            }
        }
    }
}

// The first wrong word behind the first one, of a call of this shape.
fn wrong_behind(
    alloc: Global,
    shape: Shape,
    words: &mut Words<'_>,
) -> Result<Option<WrongWord>, AllocError>
    ensures { IfOk result (TellsOf (wanted_in shape) words.old 2) }
{
    match shape {
        Shape::Bare => wrong_field(alloc, &[], words, 2),
        Shape::Named => wrong_field(alloc, &[Wanted::Name], words, 2),
        Shape::Failed => wrong_field(alloc, &[Wanted::Names], words, 2),
        Shape::Settling => wrong_field(alloc, &[Wanted::Number, Wanted::Names], words, 2),
        Shape::Reported => wrong_field(
            alloc,
            &[Wanted::Name, Wanted::Number, Wanted::Stamp],
            words,
            2,
        ),
        Shape::Handing => wrong_field(
            alloc,
            &[Wanted::Name, Wanted::Number, Wanted::Stamp, Wanted::Name],
            words,
            2,
        ),
        Shape::Forking => wrong_field(
            alloc,
            &[
                Wanted::Name,
                Wanted::Number,
                Wanted::Stamp,
                Wanted::Id,
                Wanted::Name,
                Wanted::Id,
            ],
            words,
            2,
        ),
    }
}

/// The first wrong word, if the words are not those of a call.
pub(crate) fn wrong_word(
    alloc: Global,
    words: &mut Words<'_>,
) -> Result<Option<WrongWord>, AllocError>
    requires { words.old ≢ [] }
    ensures { IfOk result (IsFirstWrongWord words.old) }
{
    let Some(kind) = words.next() else {
        unreachable!()
    };
    match shape_of(kind) {
        Some(shape) => wrong_behind(alloc, shape, words),
        None => Ok(Some(WrongWord {
            number: 1,
            why: wrong_kind(kind),
        })),
    }
}
