// `score TERM.. NET..`: scores the lent rows for the held design: score NUMBER NAME TOTAL LAST
ghost use Rattle.std.specs.Prelude.{◌≡◌};

use costs::score_slices;
use replies::{Numbered, number_of};
use rules::{Design, Refusal, Score};
use spelling::score_in;
use std::fmt;
use std::fmt::Write;
use telling::{Bits, Text};
use words::Why;

// Puts a score's answer: a reply's number and what is said beside it, and both values. A refusal has no values, and shows zeros.
fn put_scored(scored: Result<Score, Refusal>, text: &mut Text) -> fmt::Result
    ensures { text.new.room ≡ text.old.room }
{
    let none = Score {
        total: 0.0,
        last: 0.0,
    };
    let (Numbered(number, name), score) = match scored {
        Ok(score) => (Numbered(0, 0), score),
        Err(e) => (number_of(e), none),
    };
    let total = Bits(score.total);
    let last = Bits(score.last);
    writeln!(text, "score {number} {name} {total} {last}")
}

pub fn score(line: &[u8], design: Design, rows: &[u8], text: &mut Text) -> Result<fmt::Result, Why>
    ensures { text.new.room ≡ text.old.room }
{
    let said = score_in(line)?;
    let scored = score_slices(design, rows, said.kinds(), said.weights(), said.nets());
    Ok(put_scored(scored, text))
}
