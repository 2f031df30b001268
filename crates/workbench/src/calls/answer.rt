//! What an answer is written of. Where a call has a fault in place of a value, the fault's name is the answer.

use std::alloc::{AllocError, Global};
use std::fmt::Debug;

/// What a word of a call may spell.
pub trait Spelled: Drop {
    /// Why a word spells none.
    type Fault: Debug + Drop;

    /// What the word spells.
    fn of(alloc: Global, word: &str) -> Result<Self, Self::Fault>;
}

/// What has a text.
pub trait Written: Drop {
    /// Adds its text to this one.
    fn append_to(&self, text: &mut Vec<u8>) -> Result<(), AllocError>;
}

impl Written for String {
    fn append_to(&self, text: &mut Vec<u8>) -> Result<(), AllocError> {
        text.extend_from_slice(self.as_bytes())
    }
}

impl Written for Vec<u8> {
    fn append_to(&self, text: &mut Vec<u8>) -> Result<(), AllocError> {
        text.extend_from_slice(self)
    }
}

/// Two of a kind are separated by a space.
impl<T: Written> Written for (T, T) {
    fn append_to(&self, text: &mut Vec<u8>) -> Result<(), AllocError> {
        self.0.append_to(text)?;
        text.push(b' ')?;
        self.1.append_to(text)
    }
}

/// The answer to a line. Once memory is missing for a part of it nothing more is added, and all of it is `Memory`.
#[derive(Drop)]
pub struct Answer {
    text: Vec<u8>,
    is_short: bool,
}

impl Answer {
    /// Nothing was added yet.
    pub fn new(alloc: Global) -> Answer {
        Answer {
            text: Vec::new(alloc),
            is_short: false,
        }
    }

    /// What its parts are allocated by.
    pub fn alloc(&self) -> Global {
        *self.text.allocator()
    }

    /// Whether memory was missing for a part.
    pub fn is_short(&self) -> bool {
        self.is_short
    }

    /// Memory is missing for a part.
    pub fn run_out(&mut self) {
        self.is_short = true;
    }

    /// Adds these bytes.
    pub fn put(&mut self, bytes: &[u8]) {
        if !self.is_short && self.text.extend_from_slice(bytes).is_err() {
            self.is_short = true;
        }
    }

    /// Adds the text of a value.
    pub fn put_value<T: Written>(&mut self, value: &T) {
        if !self.is_short && value.append_to(&mut self.text).is_err() {
            self.is_short = true;
        }
    }

    /// Adds the text of a value, if there was memory for the value.
    pub fn put_made<T: Written>(&mut self, made: Result<T, AllocError>) {
        match made {
            Ok(value) => self.put_value(&value),
            Err(_) => self.run_out(),
        }
    }

    /// Adds the text of a value, or the fault that came in its place.
    pub fn put_given<T: Written, E: Debug + Drop>(&mut self, given: Result<T, E>) {
        match given {
            Ok(value) => self.put_value(&value),
            Err(fault) => self.put_fault(&fault),
        }
    }

    /// Adds `yes` or `no`.
    pub fn put_whether(&mut self, is: bool) {
        if is {
            self.put(b"yes");
        } else {
            self.put(b"no");
        }
    }

    /// Adds a number.
    pub fn put_number(&mut self, number: u32) {
        let digits = format!(in self.alloc(); "{number}");
        self.put_made(digits);
    }

    /// Adds the name of a fault.
    pub fn put_fault<E: Debug>(&mut self, fault: &E) {
        let name = format!(in self.alloc(); "{fault:?}");
        self.put_made(name);
    }

    // Ends the answer by an LF.
    fn end(&mut self) -> Result<(), AllocError> {
        if self.is_short {
            self.text.clear();
            self.text.extend_from_slice(b"Memory")?;
        }
        self.text.push(b'\n')?;
        Ok(())
    }

    /// The whole answer with its LF.
    pub fn line(&mut self) -> Result<&[u8], AllocError> {
        self.end()?;
        Ok(&self.text)
    }
}

/// Hands a value to `put`, which writes what is wanted of it; or writes the fault that came in its place.
pub fn put_by<T, E, F>(given: Result<T, E>, out: &mut Answer, put: F)
where
    T: Drop,
    E: Debug + Drop,
    F: FnOnce(&T, &mut Answer),
    requires { F.IsAlwaysCallable put }
{
    match given {
        Ok(value) => put(&value, out),
        Err(fault) => out.put_fault(&fault),
    }
}

/// Hands what the word spells to `put`, or writes why it spells nothing.
pub fn put_by_word<S, F>(word: &str, out: &mut Answer, put: F)
where
    S: Spelled,
    F: FnOnce(&S, &mut Answer),
    requires { F.IsAlwaysCallable put }
{
    put_by(S::of(out.alloc(), word), out, put)
}

/// The same of two words.
pub fn put_by_two<S, T, F>(one: &str, other: &str, out: &mut Answer, put: F)
where
    S: Spelled,
    T: Spelled,
    F: FnOnce(&S, &T, &mut Answer),
    requires { F.IsAlwaysCallable put }
{
    match S::of(out.alloc(), one) {
        Ok(one) => put_by_other(&one, other, out, put),
        Err(fault) => out.put_fault(&fault),
    }
}

// The same where the first word is read.
fn put_by_other<S, T, F>(one: &S, other: &str, out: &mut Answer, put: F)
where
    T: Spelled,
    F: FnOnce(&S, &T, &mut Answer),
    requires { F.IsAlwaysCallable put }
{
    match T::of(out.alloc(), other) {
        Ok(other) => put(one, &other, out),
        Err(fault) => out.put_fault(&fault),
    }
}

/// The same of three words, of which the first two spell the same.
pub fn put_by_three<S, T, F>(one: &str, other: &str, third: &str, out: &mut Answer, put: F)
where
    S: Spelled,
    T: Spelled,
    F: FnOnce(&S, &S, &T, &mut Answer),
    requires { F.IsAlwaysCallable put }
{
    match S::of(out.alloc(), one) {
        Ok(one) => put_by_others(&one, other, third, out, put),
        Err(fault) => out.put_fault(&fault),
    }
}

// The same where the first word is read.
fn put_by_others<S, T, F>(one: &S, other: &str, third: &str, out: &mut Answer, put: F)
where
    S: Spelled,
    T: Spelled,
    F: FnOnce(&S, &S, &T, &mut Answer),
    requires { F.IsAlwaysCallable put }
{
    match S::of(out.alloc(), other) {
        Ok(other) => put_by_third(one, &other, third, out, put),
        Err(fault) => out.put_fault(&fault),
    }
}

// The same where the first two are.
fn put_by_third<S, T, F>(one: &S, other: &S, third: &str, out: &mut Answer, put: F)
where
    T: Spelled,
    F: FnOnce(&S, &S, &T, &mut Answer),
    requires { F.IsAlwaysCallable put }
{
    match T::of(out.alloc(), third) {
        Ok(third) => put(one, other, &third, out),
        Err(fault) => out.put_fault(&fault),
    }
}
