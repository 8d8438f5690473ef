// A design as a line says it, which `Display` puts: W H B KINDS M NEEDS TOKENS. Each row is shown whole: as many places as the
// design has, and more where they are not zero.
ghost use Rattle.std.specs.Prelude.{◌≡◌, ◌≤◌, length, take};

use crate::{MOST_NUMBERS, NEED_NUMBERS};
use rules::{Chip, Design, MOST_MODULES, Need};
use std::fmt;
use std::fmt::Write;
use telling::Hex;

#[derive(Clone, Copy)]
pub struct Told(pub Design);

// Numbers with commas between, `-` for none.
#[derive(Clone, Copy)]
struct List<'a>(&'a [usize]);

// A row's first places: so many, if there are, and more up to the last that is not zero.
fn shown<T: Copy + Default + PartialEq>(row: &[T], whole: usize) -> &[T]
    ensures places { length result.now ≤ length row.now }
    ensures first { result.now ≡ take (length result.now) row.now }
{
    let zero = T::default();
    let nonzero = match row.iter().rposition(|x| *x != zero) {
        Some(last) => last + 1,
        None => 0,
    };
    &row[..whole.max(nonzero).min(row.len())]
}

// The numbers of the needs, three for each module.
fn numbers_of(needs: &[Need; MOST_MODULES]) -> [usize; MOST_NUMBERS] {
    let mut numbers = [0usize; MOST_NUMBERS];
    let (places, _) = numbers.as_chunks_mut::<NEED_NUMBERS>();
    for (place, need) in places.iter_mut().zip(needs) {
        *place = [need.clbs, need.rams, need.multipliers];
    }
    numbers
}

// How many tokens a design of so many modules has, of the places that there are.
pub fn token_count(modules: usize) -> usize
    ensures { result ≤ 31 }
{
    (2 * modules.min(MOST_MODULES)).saturating_sub(1)
}

impl<'a> fmt::Display for List<'a> {
    fn fmt<W: Write>(&self, f: &mut fmt::Formatter<W>) -> fmt::Result {
        let [first, rest @ ..] = self.0 else {
            return write!(f, "-");
        };
        write!(f, "{first}")?;
        for n in rest {
            write!(f, ",{n}")?;
        }
        Ok(())
    }
}

// W H B KINDS
fn put_chip<W: Write>(f: &mut fmt::Formatter<W>, chip: &Chip) -> fmt::Result {
    let width = chip.width.0;
    let kinds = Hex(shown(&chip.kinds, width));
    write!(f, "{width} {} {} {kinds}", chip.height.0, chip.block.0)
}

// M NEEDS
fn put_needs<W: Write>(f: &mut fmt::Formatter<W>, design: &Design) -> fmt::Result {
    let modules = design.modules;
    let numbers = numbers_of(&design.needs);
    let needs = List(shown(&numbers, NEED_NUMBERS * modules.min(MOST_MODULES)));
    write!(f, "{modules} {needs}")
}

impl fmt::Display for Told {
    fn fmt<W: Write>(&self, f: &mut fmt::Formatter<W>) -> fmt::Result {
        put_chip(f, &self.0.chip)?;
        write!(f, " ")?;
        put_needs(f, &self.0)?;
        let tokens = Hex(shown(&self.0.tokens, token_count(self.0.modules)));
        write!(f, " {tokens}")
    }
}
