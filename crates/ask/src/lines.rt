// Lines read from standard input.
ghost use Rattle.std.specs.Prelude.{◌≤◌, length};

use taking::{say_unread, take_some};

// Whether there may be more to read: the input may be over, or it could not be read.
#[derive(Clone, Copy, PartialEq, Eq)]
enum Source {
    Open,
    Over,
    Failed,
}

// stays: (a) no heap: lines stand in one buffer, and three places and a flag say where, and whether a front was dropped.
// Of the bytes read, those from `from` to `to` are not served yet, and the line that they begin goes to `end`. It is long if its
// start had no room and is dropped already.
#[derive(Drop)]
pub struct Reading<'a> {
    input: &'a mut [u8],
    from: usize,
    end: usize,
    to: usize,
    long: bool,
    source: Source,
    ghost line: { from ≤ end },
    ghost rest: { end ≤ to },
    ghost there: { to ≤ length input.now },
}

impl<'a> Reading<'a> {
    pub fn new(input: &'a mut [u8]) -> Reading<'a> {
        Reading {
            input,
            from: 0,
            end: 0,
            to: 0,
            long: false,
            source: Source::Open,
        }
    }

    pub fn line(&self) -> &[u8] {
        &self.input[self.from..self.end]
    }

    pub fn is_long(&self) -> bool {
        self.long
    }

    // No line is left: the input is over, whose last line may have no newline, or it could not be read, and then what was read
    // of a line could be the front of another.
    pub fn is_done(&self) -> bool {
        match self.source {
            Source::Open => false,
            Source::Over => self.from == self.to && !self.long,
            Source::Failed => true,
        }
    }

    // Drops the bytes that are not served yet, since they fill all the room.
    fn drop_all(&mut self) {
        self.from = 0;
        self.end = 0;
        self.to = 0;
        self.long = true;
    }

    // Reads on behind the bytes that are not served yet, or says why that can't be.
    fn read_on(&mut self, rt: &(impl Input + Eprint)) {
        let left = self.to - self.from;
        if left == self.input.len() {
            self.drop_all();
            return;
        }
        self.input.copy_within(self.from..self.to, 0);
        self.from = 0;
        self.end = left;
        self.to = left;
        match take_some(&mut rt.reader(), &mut self.input[left..]) {
            Ok(0) => self.source = Source::Over,
            Ok(more) => self.to = left + more,
            Err(why) => {
                say_unread(rt, why);
                self.source = Source::Failed;
            }
        }
    }

    // Reads until a whole line is there, or the input is over.
    // stays: (a) `forever` needs a Wait, so the turns are counted, to a number that no run reaches.
    pub fn read_line(&mut self, rt: &(impl Input + Eprint)) {
        for _ in 0..usize::MAX {
            let rest = &self.input[self.from..self.to];
            if let Some(length) = rest.iter().position(|b| *b == b'\n') {
                self.end = self.from + length;
                return;
            }
            self.end = self.to;
            if self.source != Source::Open {
                return;
            }
            self.read_on(rt);
        }
    }

    // Goes past the line and its newline, if it has one.
    pub fn pass(&mut self) {
        let next = self.to.min(self.end + 1);
        self.end = next;
        self.from = next;
        self.long = false;
    }
}
