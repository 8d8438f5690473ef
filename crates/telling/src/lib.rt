// Answers as text in lent bytes. What is put goes behind what stands there; what has no room is left out, and there is room
// for every answer, so putting never fails.
#![tactic(auto)]

mod printing;
mod shown;

ghost use Rattle.std.specs.Prelude.{◌≡◌, ◌≤◌, ◌==◌, ◌∷◌, [], length, OnOk, IfSome};
ghost use Rattle.telling.specs.Said.{with_bytes};

use printing::print;
pub use shown::{Bits, Hash, Hex};
use std::fmt;
use std::fmt::Write;
use std::marker::Model;

// Text in lent bytes: those in front are put, the others are not yet.
// stays: (a) no heap, so its length stands beside them.
#[derive(Drop)]
pub struct Text<'a> {
    bytes: &'a mut [u8],
    len: usize,
}

impl<'a> Model for Text<'a> {
    ghost use Rattle.std.specs.Prelude.{◌≤◌, length, take};
    ghost use Rattle.telling.specs.Said.{Said};

    ghost Value = { Said };

    ghost view = { λ t. record { text = take t.len t.bytes.now; room = length t.bytes.now } };

    ghost invariant = { λ t. t.len ≤ length t.bytes.now };
}

impl<'a> Text<'a> {
    // A text with nothing put yet.
    pub fn new(bytes: &'a mut [u8]) -> Self
        ensures { result ≡ record { text = []; room = length bytes.old } }
    {
        Text { bytes, len: 0 }
    }

    // What is put so far.
    pub fn said(&self) -> &[u8]
        ensures text { result.now ≡ self.now.text }
        ensures room { length result.now ≤ self.now.room }
    {
        &self.bytes[..self.len]
    }

    // Whether there is no room left.
    pub fn is_full(&self) -> bool
        ensures { result ≡ (length self.now.text == self.now.room) }
    {
        self.len == self.bytes.len()
    }

    // Nothing is put any more.
    pub fn clear(&mut self)
        ensures { self.new ≡ record { text = []; room = self.old.room } }
    {
        self.len = 0;
    }

    // Puts one byte.
    pub fn put_byte(&mut self, b: u8)
        ensures { self.new ≡ with_bytes self.old (b ∷ []) }
    {
        if self.len < self.bytes.len() {
            self.bytes[self.len] = b;
            self.len += 1;
        }
    }

    // Puts bytes as they are.
    pub fn put_bytes(&mut self, bytes: &[u8])
        ensures { self.new ≡ with_bytes self.old bytes.now }
    {
        // what is put has room: the proof needs it where there are no bytes
        let _ = &self.bytes;
        for b in bytes {
            self.put_byte(*b);
        }
    }

    // What `write!` and `writeln!` call: puts what is printed. The room stays, whatever is printed.
    pub fn write_fmt<D: fmt::Display + Drop>(&mut self, value: D) -> fmt::Result
        ensures room { self.new.room ≡ self.old.room }
        ensures text { OnOk result (IfSome (D.output value) (λ s. self.new ≡ with_bytes self.old s)) }
    {
        let len = self.len;
        let (more, put) = print(&mut self.bytes[len..], value);
        self.len = len + more;
        put
    }
}

// So `write!` puts what it prints.
impl<'a> Write for Text<'a> {
    ghost use Rattle.std.specs.Prelude.{◌≡◌};
    ghost use Rattle.telling.specs.Said.{with_bytes};

    ghost write_str_gives = { λ before s after. after ≡ with_bytes before s };

    fn write_str(&mut self, s: &str) -> fmt::Result {
        self.put_bytes(s.as_bytes());
        Ok(())
    }
}
