// Answers whose first byte says whether the rest is what was asked for or a line on what is wrong, since a program has no exit status.
ghost use Rattle.std.specs.Prelude.{◌≡◌};

use crate::back::put_back;
use crate::turn;
use std::fmt;
use std::fmt::Write;
use telling::Text;

// stays: (a) the programs' output begins with a byte that the scripts and examples read, as it did.
const DONE: u8 = b'd';

const REFUSED: u8 = b'r';

// The line of a place in a text, counted from 1.
// stays: (a) a mistake tells its place among the text's bytes; what is behind it is not needed.
fn line_of(text: &[u8], at: usize) -> usize {
    text.iter().take(at).filter(|b| **b == b'\n').count() + 1
}

// The answer is what is wrong, in a line.
fn refuse<D: fmt::Display + Drop>(answer: &mut Text, wrong: D)
    ensures { answer.new.room ≡ answer.old.room }
{
    answer.clear();
    answer.put_byte(REFUSED);
    // putting never fails
    let _ = writeln!(answer, "{wrong}");
}

// There is more to turn than there is room for.
fn refuse_longer(answer: &mut Text, most: usize)
    ensures { answer.new.room ≡ answer.old.room }
{
    refuse(
        answer,
        format_args!("this is too long; at most {most} bytes"),
    );
}

// The answer is the bytes that a text of at most so many bytes says.
pub fn answer_text(text: &[u8], most: usize, answer: &mut Text)
    ensures { answer.new.room ≡ answer.old.room }
{
    if text.len() > most {
        refuse_longer(answer, most);
        return;
    }
    answer.clear();
    answer.put_byte(DONE);
    if let Err(mistake) = turn(text, answer) {
        let line = line_of(text, mistake.at());
        refuse(answer, format_args!("line {line}: {mistake}"));
    }
}

// The answer is the text of at most so many bytes.
pub fn answer_back(bytes: &[u8], most: usize, answer: &mut Text)
    ensures { answer.new.room ≡ answer.old.room }
{
    if bytes.len() > most {
        refuse_longer(answer, most);
        return;
    }
    answer.clear();
    answer.put_byte(DONE);
    put_back(answer, bytes);
}
