// The plan program's text: put into bytes that are lent, byte for byte as the rules have it.
#![tactic(auto)]

ghost use Rattle.std.specs.Prelude.{[], ◌∷◌, ◌+◌, ◌*◌, ◌≤◌, ◌<◌, length};
ghost use Rattle.rules.specs.Program.{decimal, figures, module_line, module_lines, plan_line, plan_text};
ghost use Rattle.putting.specs.Put.{Put};
ghost use Rattle.printing.specs.Text.{TextLent};

use replies::number_of;
use rows::rectangle_at;
use rules::{Refusal, Shape};

// Bytes enough for the text of any answer.
pub const TEXT_SIZE: usize = 2048;

// How many digits a number has at most.
const DIGITS: usize = 5;

// stays: (a) Put, here and below, says which lent bytes stay behind what is put; a text of its own would not.
// Puts one byte.
fn put_byte(out: &mut [u8], at: usize, b: u8) -> usize
    requires { at < length out.old }
    ensures { Put out.old at (b ∷ []) result out.new }
{
    out[at] = b;
    at + 1
}

// Puts one digit.
fn put_digit(out: &mut [u8], at: usize, d: usize) -> usize
    requires { (at < length out.old) × (d < 10) }
    ensures { Put out.old at ((48 + d) ∷ []) result out.new }
{
    put_byte(out, at, b'0' + d as u8)
}

// Puts a number of at most so many digits, without leading zeros: the digits before the last one, then that.
fn put_decimal(out: &mut [u8], at: usize, digits: usize, n: usize) -> usize
    requires { at + digits ≤ length out.old }
    ensures { Put out.old at (decimal digits n) result out.new }
{
    if digits == 0 {
        return at;
    }
    if n < 10 {
        return put_digit(out, at, n);
    }
    let next = put_decimal(out, at, digits - 1, n / 10);
    put_digit(out, next, n % 10)
}

// Puts a number in a line: a space before it.
fn put_figure(out: &mut [u8], at: usize, n: usize) -> usize
    requires { at + 6 ≤ length out.old }
    ensures { Put out.old at (32 ∷ decimal 5 n) result out.new }
{
    let next = put_byte(out, at, b' ');
    put_decimal(out, next, DIGITS, n)
}

// Puts the numbers of a line, and its newline.
fn put_figures(out: &mut [u8], at: usize, numbers: &[usize]) -> usize
    requires { at + 6 * length numbers.now + 1 ≤ length out.old }
    ensures { Put out.old at (figures numbers.now) result out.new }
{
    let mut next = at;
    for n in numbers {
        next = put_figure(out, next, *n);
    }
    put_byte(out, next, b'\n')
}

// Puts the line of module k: k x y w h.
fn put_module(out: &mut [u8], at: usize, k: usize, rows: &[u8]) -> usize
    requires { (at + 30 ≤ length out.old) × (4 * k + 4 ≤ length rows.now) }
    ensures { Put out.old at (module_line k rows.now) result out.new }
{
    let r = rectangle_at(rows, k);
    let numbers = [r.corner.x.0, r.corner.y.0, r.shape.w.0, r.shape.h.0];
    let next = put_decimal(out, at, DIGITS, k);
    put_figures(out, next, &numbers)
}

// Puts a line for each module.
fn put_modules(out: &mut [u8], at: usize, modules: usize, rows: &[u8]) -> usize
    requires { (at + 30 * modules ≤ length out.old) × (4 * modules ≤ length rows.now) }
    ensures { Put out.old at (module_lines modules rows.now) result out.new }
{
    let mut next = at;
    // stays: (d) k names a module, whose row is read and whose number is put.
    for k in 0..modules {
        next = put_module(out, next, k, rows);
    }
    next
}

// Puts the first line: "plan", and the numbers after it.
fn put_plan(out: &mut [u8], numbers: &[usize]) -> usize
    requires { 6 * length numbers.now + 5 ≤ length out.old }
    ensures { Put out.old 0 (plan_line numbers.now) result out.new }
{
    out[..4].copy_from_slice(b"plan");
    put_figures(out, 4, numbers)
}

// Puts the text of an answer, with the rows of its modules, and gives the text's length.
pub fn plan_text(
    answer: Result<Shape, Refusal>,
    modules: usize,
    rows: &[u8],
    out: &mut [u8],
) -> usize
    requires { TextLent modules rows.now out.old }
    ensures { Put out.old 0 (plan_text answer modules rows.now) result out.new }
{
    match answer {
        Ok(s) => {
            let numbers = [0, s.w.0, s.h.0];
            let next = put_plan(out, &numbers);
            put_modules(out, next, modules, rows)
        }
        Err(e) => {
            let said = number_of(e);
            let numbers = [said.0, said.1];
            put_plan(out, &numbers)
        }
    }
}
