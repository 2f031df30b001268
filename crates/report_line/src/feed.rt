//! Lines out of a stream that comes in pieces.

ghost use Rattle.std.specs.Prelude.{◌≡◌, ◌≤◌, ◌<◌, ◌+◌, ◌↔◌, ℕ, List, [], ◌∷◌, ◌++◌, length, drop, map, slice_get, Some, None, IsTrue, ⊤, IfOk, OnErr, MatchOption};
ghost use Rattle.std.specs.List.{concat, AllByRecursion};
ghost use Rattle.report_line.specs.Cutting.{Stand, NoBreak, IsLine, IsLineSplit, onto, cut_from, cut_of, fed, line_limit};
ghost use Rattle.report_line.specs.working.Parts.{part_of, ArePartsOf, stand_from};

use memchr::memchr;
use std::alloc::{AllocError, Global};
use std::marker::Model;

/// The greatest length of a line before its LF.
const MOST: usize = 8192;

/// Lines in a row, each without its LF.
pub struct Lines {
    // What the lines stand in.
    bytes: Vec<u8>,
    // From where up to where each of them stands there.
    parts: Vec<(usize, usize)>,
}

impl Drop for Lines {
    fn drop(self) {
        let Lines { bytes: _, parts: _ } = self;
    }
}

impl Model for Lines {
    ghost use Rattle.std.specs.Prelude.{List, ℕ, map};
    ghost use Rattle.report_line.specs.working.Parts.{part_of, ArePartsOf};

    ghost Value = { List (List ℕ) };

    ghost view = { λ l. map (part_of l.bytes.items) l.parts.items };

    ghost invariant = { λ l. ArePartsOf l.bytes.items l.parts.items };
}

impl Lines {
    // No lines. It takes no memory.
    fn new(alloc: Global) -> Lines
        ensures { result ≡ [] }
    {
        Lines {
            bytes: Vec::new(alloc),
            parts: Vec::new(alloc),
        }
    }

    /// How many lines there are.
    pub fn len(&self) -> usize
        ensures { result ≡ length self.now }
    {
        self.parts.len()
    }

    /// Line `i`, counted from 0.
    pub fn line(&self, i: usize) -> &[u8]
        requires { i < length self.now }
        ensures { slice_get self.now i ≡ Some result.now }
    {
        let (from, to) = self.parts[i];
        &self.bytes[from..to]
    }
}

// What stands in front of the first LF, and what behind it.
#[inline(always)]
fn cut_once(bytes: &[u8]) -> Option<(&[u8], &[u8])>
    ensures { MatchOption result (NoBreak bytes.now) (λ parts. NoBreak parts.0.now × (bytes.now ≡ parts.0.now ++ 10 ∷ parts.1.now)) }
{
    let at = memchr(b'\n', bytes)?;
    Some((&bytes[..at], &bytes[at + 1..]))
}

// Whether a line may begin with the one and go on with the other.
fn fits(start: &[u8], bytes: &[u8]) -> bool
    ensures { IsTrue result ↔ (length start.now + length bytes.now ≤ line_limit) }
{
    start.len() <= MOST && bytes.len() <= MOST - start.len()
}

// Where the lines of the bytes stand in them, and where the rest begins, unless it is too long.
fn cut_parts(
    alloc: Global,
    bytes: &[u8],
) -> Result<(Vec<(usize, usize)>, Option<usize>), AllocError>
    ensures cut { IfOk result (λ x. cut_of bytes.now ≡ (map (part_of bytes.now) x.0.items, stand_from bytes.now x.1)) }
    ensures parts { IfOk result (λ x. ArePartsOf bytes.now x.0.items) }
    ensures within { IfOk result (λ x. MatchOption x.1 ⊤ (λ at. at ≤ length bytes.now)) }
{
    let mut parts = Vec::new(alloc);
    let mut at = 0;
    while let Some((line, _)) = cut_once(&bytes[at..]) {
        if line.len() > MOST {
            return Ok((parts, None));
        }
        let end = at + line.len();
        parts.push((at, end))?;
        at = end + 1;
    }
    if bytes.len() - at > MOST {
        return Ok((parts, None));
    }
    Ok((parts, Some(at)))
}

// A piece behind the rest: the bytes of both, where the lines stand in them, and where what is left begins, unless it is
// too long.
struct Cut {
    bytes: Vec<u8>,
    parts: Vec<(usize, usize)>,
    rest: Option<usize>,
}

fn cut_piece(alloc: Global, rest: &[u8], piece: &[u8]) -> Result<Cut, AllocError>
    requires { IsLine rest.now }
    ensures cut { IfOk result (λ x. cut_from (Some rest.now) piece.now ≡ (map (part_of x.bytes.items) x.parts.items, stand_from x.bytes.items x.rest)) }
    ensures parts { IfOk result (λ x. ArePartsOf x.bytes.items x.parts.items) }
    ensures lines { IfOk result (λ x. AllByRecursion IsLine (map (part_of x.bytes.items) x.parts.items)) }
    ensures rest { IfOk result (λ x. MatchOption x.rest ⊤ (λ at. (at ≤ length x.bytes.items) × IsLine (drop at x.bytes.items))) }
{
    let mut bytes = Vec::with_capacity(alloc, rest.len() + piece.len())?;
    bytes.extend_from_slice(rest)?;
    bytes.extend_from_slice(piece)?;
    let (parts, rest) = cut_parts(alloc, &bytes)?;
    Ok(Cut { bytes, parts, rest })
}

/// Cuts a stream into lines, whatever pieces it comes in.
///
/// It is seen as the bytes behind the last LF, or `None` where 8,193 bytes without LF have come behind the last line.
pub struct Feed {
    alloc: Global,
    rest: Vec<u8>,
    too_long: bool,
}

impl Drop for Feed {
    fn drop(self) {
        let Feed {
            alloc: _,
            rest: _,
            too_long: _,
        } = self;
    }
}

impl Model for Feed {
    ghost use Rattle.std.specs.Prelude.{Some, None, if◌then◌else◌};
    ghost use Rattle.report_line.specs.Cutting.{Stand, IsLine};

    ghost Value = { Stand };

    ghost view = { λ f. if f.too_long then None else Some f.rest.items };

    ghost invariant = { λ f. IsLine f.rest.items };
}

impl Feed {
    /// A stream of which nothing has come. It takes no memory.
    pub fn new(alloc: Global) -> Feed
        ensures { result ≡ Some [] }
    {
        Feed {
            alloc,
            rest: Vec::new(alloc),
            too_long: false,
        }
    }

    /// Takes the next piece, and gives the lines that it completes, in order; none once a line is too long. After an
    /// `Err` the feed is as before.
    pub fn push(&mut self, piece: &[u8]) -> Result<Lines, AllocError>
        ensures cut { IfOk result (λ lines. cut_from self.old piece.now ≡ (lines, self.new)) }
        ensures lines { IfOk result (λ lines. AllByRecursion IsLine lines) }
        ensures err { OnErr result (self.new ≡ self.old) }
    {
        if self.too_long {
            return Ok(Lines::new(self.alloc));
        }
        let Some(_) = cut_once(piece) else {
            if !fits(&self.rest, piece) {
                self.too_long = true;
                return Ok(Lines::new(self.alloc));
            }
            self.rest.extend_from_slice(piece)?;
            return Ok(Lines::new(self.alloc));
        };
        let Cut { bytes, parts, rest } = cut_piece(self.alloc, &self.rest, piece)?;
        match rest {
            Some(at) => self.rest = Vec::from_slice(self.alloc, &bytes[at..])?,
            None => self.too_long = true,
        }
        Ok(Lines { bytes, parts })
    }

    /// Whether 8,193 bytes without LF have come behind the last line. It takes no memory.
    pub fn too_long(&self) -> bool
        ensures { IsTrue result ↔ (self.now ≡ None) }
    {
        self.too_long
    }
}

/// The lines of a whole stream: it is these lines, each with its LF, and a rest that has no whole line; and no other
/// lines are.
pub fn lines_of_a_stream()
    ensures cut { (stream : List ℕ) → IsLineSplit stream (cut_of stream).0 (cut_of stream).1 }
    ensures only { (stream : List ℕ) (lines : List (List ℕ)) (stand : Stand) → IsLineSplit stream lines stand → cut_of stream ≡ (lines, stand) }
{}

/// A stream has the same lines whatever pieces it comes in.
pub fn pieces_do_not_matter()
    ensures two { (stand : Stand) (xs ys : List ℕ) → cut_from stand (xs ++ ys) ≡ onto (cut_from stand xs).0 (cut_from (cut_from stand xs).1 ys) }
    ensures all { (stand : Stand) (pieces : List (List ℕ)) → fed stand pieces ≡ cut_from stand (concat pieces) }
{}
