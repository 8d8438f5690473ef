// Writing a design to bytes: its value is tested first, then the room that is lent, and only then a byte is put.
#![tactic(auto)]

ghost use Rattle.std.specs.Prelude.{◌≡◌, List, ◌++◌, ℕ, ◌+◌, ◌^◌, ◌≤◌, ◌<◌, length, drop};
ghost use Rattle.std.specs.List.{sum_by, flat_map, All};
ghost use Rattle.std.proofs.Math.Bool.{So};
ghost use Rattle.rules.specs.Design.{most_number, lawful_need, Sized};
ghost use Rattle.rules.specs.Bytes.{number_bytes, need_bytes, design_bytes};
ghost use Rattle.rules.proofs.Limits.{Limits};
ghost use Rattle.rules.specs.Service.{Writes};
ghost use Rattle.putting.specs.Put.{Put};
ghost use Rattle.writing.specs.Parts.{head_numbers, design_size};

use lawful::value_test;
use numbers::{number_len, put_number};
use rules::{Design, MOST_COLUMNS, MOST_MODULES, MOST_ROWS, MOST_TOKENS, Need, Refusal};

// The number that stands first in every design's bytes.
const FORM_NUMBER: usize = 1;

// How many bytes a number below 16,384 takes, for a constant's value, which can't call number_len.
macro_rules! len_of {
    ($most:expr) => {
        if $most < 128 { 1 } else { 2 }
    };
}

// The bytes of the longest lawful design. The form number and a kind take one, a number of a need three.
const DESIGN_SIZE: usize = 1
    + len_of!(MOST_COLUMNS)
    + 2 * len_of!(MOST_ROWS)
    + MOST_COLUMNS
    + len_of!(MOST_MODULES)
    + 9 * MOST_MODULES
    + len_of!(MOST_MODULES + 1) * MOST_TOKENS;

// How many bytes the longest lawful design takes.
pub fn design_size() -> usize
    ensures { result ≡ design_size }
{
    DESIGN_SIZE
}

// What is written as numbers, one behind the other: its bytes, and which values have their bytes.
// stays: (a) Put says which lent bytes stay behind what is put, so bytes and a position are taken, here and below.
trait Written {
    ghost bytes: { Self → List ℕ };

    ghost fits: { Self → Type 0 };

    // How many bytes it takes.
    fn size(&self) -> usize
        ensures { result ≡ length (bytes self.now) };

    // Puts it at `at`, and gives the position after it.
    fn put(&self, out: &mut [u8], at: usize) -> usize
        requires fit { fits self.now }
        requires room { at + length (bytes self.now) ≤ length out.old }
        ensures { Put out.old at (bytes self.now) result out.new };
}

impl Written for usize {
    ghost bytes = { number_bytes };

    ghost fits = { λ v. v ≤ most_number };

    fn size(&self) -> usize {
        number_len(*self)
    }

    fn put(&self, out: &mut [u8], at: usize) -> usize {
        put_number(out, at, *self)
    }
}

impl Written for u8 {
    ghost bytes = { number_bytes };

    ghost fits = { λ _. Unit {0} };

    fn size(&self) -> usize {
        number_len(*self as usize)
    }

    fn put(&self, out: &mut [u8], at: usize) -> usize {
        put_number(out, at, *self as usize)
    }
}

impl Written for Need {
    ghost bytes = { need_bytes };

    ghost fits = { λ n. So (lawful_need n) };

    fn size(&self) -> usize {
        row_len(&[self.clbs, self.rams, self.multipliers])
    }

    fn put(&self, out: &mut [u8], at: usize) -> usize {
        put_row(out, at, &[self.clbs, self.rams, self.multipliers])
    }
}

// How many bytes a row takes.
fn row_len<T: Written>(row: &[T]) -> usize
    requires { sum_by (λ x. length (T.bytes x)) row.now < 2 ^ 64 }
    ensures { result ≡ sum_by (λ x. length (T.bytes x)) row.now }
{
    row.iter().map(|x| x.size()).sum()
}

// Puts a row at `at`, and gives the position after it.
#[tactic(auto, using(crate::proofs::Putting::next_fits))]
fn put_row<T: Written>(out: &mut [u8], at: usize, row: &[T]) -> usize
    requires fit { All T.fits row.now }
    requires room { at + length (flat_map T.bytes row.now) ≤ length out.old }
    ensures { Put out.old at (flat_map T.bytes row.now) result out.new }
{
    let mut next = at;
    for x in row {
        next = x.put(out, next);
    }
    next
}

// The form number and the chip's three numbers, which stand first.
fn head(d: Design) -> [usize; 4]
    ensures { result ≡ head_numbers d }
{
    [FORM_NUMBER, d.chip.width.0, d.chip.height.0, d.chip.block.0]
}

// How many bytes a lawful design takes.
#[tactic(auto, using(crate::proofs::Lengths::parts))]
fn design_len(d: Design) -> usize
    requires { Sized d × Limits d }
    ensures { result ≡ length (design_bytes d) }
{
    row_len(&head(d))
        + row_len(&d.chip.kinds[..d.chip.width.0])
        + d.modules.size()
        + row_len(&d.needs[..d.modules])
        + row_len(&d.tokens[..2 * d.modules - 1])
}

// Puts a lawful design in front; what stands past it stays.
#[tactic(auto, using(crate::proofs::Lengths::parts))]
fn put_design(out: &mut [u8], d: Design)
    requires lawful { Sized d × Limits d }
    requires room { length (design_bytes d) ≤ length out.old }
    ensures { out.new ≡ design_bytes d ++ drop (length (design_bytes d)) out.old }
{
    let at = put_row(out, 0, &head(d));
    let at = put_row(out, at, &d.chip.kinds[..d.chip.width.0]);
    let at = d.modules.put(out, at);
    let at = put_row(out, at, &d.needs[..d.modules]);
    put_row(out, at, &d.tokens[..2 * d.modules - 1]);
}

// Writes a design: one that breaks the rules is refused, then a buffer that is too short for it; otherwise its bytes are
// put in front.
pub fn write_design(d: Design, out: &mut [u8]) -> Result<usize, Refusal>
    ensures { Writes d out.old result out.new }
{
    value_test(d)?;
    let count = design_len(d);
    if out.len() < count {
        return Err(Refusal::TooShort);
    }
    put_design(out, d);
    Ok(count)
}
