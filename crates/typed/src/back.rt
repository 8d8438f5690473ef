// A design's bytes as text: each number on a line, with a comment that says what it is.
ghost use Rattle.std.specs.Prelude.{◌≡◌, ◌+◌, ◌≤◌, ◌<◌, ◌^◌, length};
ghost use Rattle.std.specs.Iterator.{at_most};

use fields::{Field, Sizes, field_of, sizes_of};
use numbers::take_number;
use std::fmt;
use std::fmt::Write;
use telling::{Hex, Text};

// What a number says, by what it is.
#[derive(Clone, Copy)]
struct Meaning {
    field: Field,
    value: Option<usize>,
}

impl fmt::Display for Meaning {
    fn fmt<W: Write>(&self, f: &mut fmt::Formatter<W>) -> fmt::Result {
        let Some(value) = self.value else {
            return write!(f, "no whole number");
        };
        match (self.field, value) {
            (Field::Kind(_), 0) => write!(f, "CLB"),
            (Field::Kind(_), 1) => write!(f, "RAM"),
            (Field::Kind(_), 2) => write!(f, "multiplier"),
            (Field::Token { .. }, 0) => write!(f, "a vertical cut"),
            (Field::Token { .. }, 1) => write!(f, "a horizontal cut"),
            (Field::Token { .. }, _) => write!(f, "module {}", value - 2),
            _ => write!(f, "{value}"),
        }
    }
}

// How many bytes the number takes that begins these, and its value; where none begins, one byte and no value.
#[tactic(auto, unfolding(rules::specs::Bytes::number_at, rules::specs::Bytes::second_byte, rules::specs::Bytes::third_byte), using(numbers::proofs::Answers::was_taken))]
fn first_of(s: &[u8]) -> (usize, Option<usize>)
    requires { 0 < length s.now }
    ensures { (0 < result.0) × (result.0 ≤ length s.now) }
{
    match take_number(s, 0) {
        Ok(taken) => (taken.next, Some(taken.value)),
        Err(_) => (1, None),
    }
}

// A number's bytes, what it is and its value; or a byte that begins none.
#[derive(Drop)]
struct Line<'a> {
    bytes: &'a [u8],
    field: Field,
    value: Option<usize>,
}

impl<'a> fmt::Display for Line<'a> {
    fn fmt<W: Write>(&self, f: &mut fmt::Formatter<W>) -> fmt::Result {
        let field = self.field;
        let value = self.value;
        write!(
            f,
            "{}  # {field}: {}",
            Hex(self.bytes),
            Meaning { field, value }
        )
    }
}

// The lines of a design's bytes. The next number is the so-manieth; where none begins it is tried a byte further.
#[derive(Drop)]
struct Lines<'a> {
    rest: &'a [u8],
    sizes: Sizes,
    index: usize,
    ghost fits: { index + length rest.now < 2 ^ 64 },
}

impl<'a> Iterator for Lines<'a> {
    type Item = Line<'a>;

    ghost remaining = { λ s. at_most (length s.rest.now) };

    fn next(&mut self) -> Option<Line<'a>> {
        if self.rest.is_empty() {
            return None;
        }
        let field = field_of(self.sizes.width, self.sizes.modules, self.index);
        let (taken, value) = first_of(self.rest);
        let (bytes, rest) = self.rest.split_at(taken);
        self.rest = rest;
        if value.is_some() {
            self.index += 1;
        }
        Some(Line {
            bytes,
            field,
            value,
        })
    }
}

// Puts a design's bytes as text.
pub fn put_back(text: &mut Text, s: &[u8])
    ensures { text.new.room ≡ text.old.room }
{
    let lines = Lines {
        rest: s,
        sizes: sizes_of(s),
        index: 0,
    };
    for line in lines {
        // putting never fails
        let _ = writeln!(text, "{line}");
    }
}
