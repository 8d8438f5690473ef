// Hexadecimal digits.
ghost use Rattle.std.specs.Prelude.{length};
ghost use Rattle.std.specs.Iterator.{at_most};

// What a byte of text is: a digit's value, what may stand between two bytes, a comment's, or something else.
#[derive(Clone, Copy)]
pub enum Digit {
    Value(u8),
    Space,
    Comment,
    Other(u8),
}

// What a byte of text is, in a comment or outside of one. A comment goes from `#` up to the line's end.
// stays: (d) a yes or no with no value beside it.
fn digit_in(b: u8, in_comment: bool) -> Digit {
    match b {
        b'\n' => Digit::Space,
        _ if in_comment => Digit::Comment,
        b'0'..=b'9' => Digit::Value(b - b'0'),
        b'a'..=b'f' => Digit::Value(b - b'a' + 10),
        b'A'..=b'F' => Digit::Value(b - b'A' + 10),
        b' ' | b'\t' | b'\r' => Digit::Space,
        b'#' => Digit::Comment,
        _ => Digit::Other(b),
    }
}

// What each byte of a text is.
#[derive(Drop)]
pub struct Digits<'a> {
    rest: &'a [u8],
    in_comment: bool,
}

impl<'a> Digits<'a> {
    pub fn new(text: &'a [u8]) -> Self {
        Digits {
            rest: text,
            in_comment: false,
        }
    }
}

impl<'a> Iterator for Digits<'a> {
    type Item = Digit;

    ghost remaining = { λ s. at_most (length s.rest.now) };

    fn next(&mut self) -> Option<Digit> {
        let (first, others) = self.rest.split_first()?;
        let digit = digit_in(*first, self.in_comment);
        self.rest = others;
        self.in_comment = matches!(digit, Digit::Comment);
        Some(digit)
    }
}
