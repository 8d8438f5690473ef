// Lines of a drawing, written one after the other to standard output. The first that can't be written whole ends the drawing.
#![tactic(auto)]

ghost use Rattle.std.specs.Prelude.{◌≡◌};

use std::fmt;
use std::fmt::{Display, Write};
use std::io::Stdout;
use telling::Text;

// Bytes enough for any line.
pub const LINE_SIZE: usize = 1_024;

// How far the lines of words stand apart in an SVG, and how far from its left side.
const LINE: usize = 18;

const NAME_LEFT: usize = 24;

const WORDS_LEFT: usize = 44;

// What lines of words are: text, or SVG at height y.
#[derive(Clone, Copy)]
pub enum Form {
    Text,
    Svg { y: usize },
}

// Writes to standard output, which only main can lend it; a dry pen has no output, and nothing that it writes fails. It has said
// so many cuts.
#[derive(Clone, Copy)]
pub struct Pen {
    pub form: Form,
    pub cuts: usize,
    pub out: Option<Stdout>,
}

impl Pen {
    // A pen that has said no cut.
    pub fn new(form: Form, out: Option<Stdout>) -> Self
        ensures { (result.form ≡ form) × (result.cuts ≡ 0) }
    {
        Pen { form, cuts: 0, out }
    }

    // It has said one more.
    pub fn count_cut(&mut self) {
        self.cuts = self.cuts.wrapping_add(1);
    }
}

// A pen and the line that it writes.
#[derive(Drop)]
pub struct Lines<'a> {
    pub pen: Pen,
    line: Text<'a>,
}

impl<'a> Lines<'a> {
    // Lines of a pen, each with as many bytes as `line`.
    pub fn new(pen: Pen, line: &'a mut [u8]) -> Self
        ensures { result.pen ≡ pen }
    {
        Lines {
            pen,
            line: Text::new(line),
        }
    }

    // Writes a line as it is.
    pub fn write_line<D: Display + Drop>(&mut self, line: D) -> fmt::Result {
        writeln!(self.line, "{line}")?;
        self.write()
    }

    // Writes a region's name.
    pub fn say_name<D: Display + Drop>(&mut self, name: D) -> fmt::Result {
        match self.pen.form {
            Form::Text => self.write_line(name),
            Form::Svg { y } => {
                write!(
                    self.line,
                    "<text x=\"{NAME_LEFT}\" y=\"{y}\" font-weight=\"bold\">{name}"
                )?;
                self.end_words(y)
            }
        }
    }

    // Writes what is said of a region, further in.
    pub fn say_words<D: Display + Drop>(&mut self, words: D) -> fmt::Result {
        match self.pen.form {
            Form::Text => self.write_line(format_args!("   {words}")),
            Form::Svg { y } => {
                write!(self.line, "<text x=\"{WORDS_LEFT}\" y=\"{y}\">{words}")?;
                self.end_words(y)
            }
        }
    }

    // Ends a line of words at height y, and goes a line further down.
    fn end_words(&mut self, y: usize) -> fmt::Result {
        self.pen.form = Form::Svg {
            y: y.wrapping_add(LINE),
        };
        writeln!(self.line, "</text>")?;
        self.write()
    }

    // Writes what is put, and clears the line. One that fills its room may have lost its end, so it counts as not written.
    fn write(&mut self) -> fmt::Result {
        let written = match self.pen.out {
            None => true,
            Some(out) => !self.line.is_full() && out.write_all(self.line.said()).is_ok(),
        };
        self.line.clear();
        if written { Ok(()) } else { Err(fmt::Error) }
    }
}
