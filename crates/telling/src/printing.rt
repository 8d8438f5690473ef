// A text while something is printed into it.
ghost use Rattle.std.specs.Prelude.{◌≡◌, ◌≤◌, ◌++◌, length, take, OnOk, IfSome};

use std::fmt;
use std::fmt::Write;

// The bytes of a text and how many are put. It keeps the reference to them, so that the text finds there what was printed.
#[derive(Drop)]
struct Line<'a> {
    bytes: &'a mut [u8],
    len: usize,
    ghost there: { len ≤ length bytes.now },
}

// Puts bytes behind the first so many, as far as there is room, and says how many are then put.
#[tactic(auto, using(crate::proofs::Lines::put_behind))]
fn put_behind(bytes: &mut [u8], len: usize, more: &[u8]) -> usize
    requires { len ≤ length bytes.old }
    ensures there { result ≤ length bytes.new }
    ensures text { take result bytes.new ≡ take (length bytes.old) (take len bytes.old ++ more.now) }
{
    let n = more.len().min(bytes.len() - len);
    bytes[len..len + n].copy_from_slice(&more[..n]);
    len + n
}

impl<'a> Write for Line<'a> {
    ghost use Rattle.telling.specs.Printed.{Printed};

    ghost write_str_gives = { λ before s after. Printed before s after };

    fn write_str(&mut self, s: &str) -> fmt::Result {
        self.len = put_behind(self.bytes, self.len, s.as_bytes());
        Ok(())
    }
}

// Prints into bytes, and says how many it put and whether the value could be printed.
pub fn print<D: fmt::Display + Drop>(bytes: &mut [u8], value: D) -> (usize, fmt::Result)
    ensures there { result.0 ≤ length bytes.new }
    ensures text { OnOk result.1 (IfSome (D.output value) (λ s. take result.0 bytes.new ≡ take (length bytes.old) s)) }
{
    let mut line = Line {
        bytes: &mut *bytes,
        len: 0,
    };
    let put = line.write(value);
    let len = line.len;
    // a line can't be left with other bytes, but no law of Write says so
    (len.min(bytes.len()), put)
}
