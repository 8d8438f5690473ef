// Bytes that lines lend.
ghost use Rattle.std.specs.Prelude.{◌≡◌, ◌≤◌, length, OnErr};

use words::{Why, lend, poke};

// stays: (a) no heap, so what is lent is the front of bytes that the program holds, and its length stands beside them.
// Of all the bytes that there are, the first ones, which are lent.
#[derive(Drop)]
pub struct Lent<'a> {
    pub all: &'a mut [u8],
    pub count: usize,
    pub ghost there: { count ≤ length all.now },
}

impl<'a> Lent<'a> {
    // None of these bytes.
    pub fn none(all: &'a mut [u8]) -> Lent<'a>
        ensures { result.count ≡ 0 }
    {
        Lent { all, count: 0 }
    }

    // `N F` after a line's first word: lends n bytes, all f, if there are so many; else as many stay lent.
    pub fn lend(&mut self, line: &[u8]) -> Result<(), Why>
        ensures { OnErr result (self.new.count ≡ self.old.count) }
    {
        self.count = lend(line, self.all)?;
        Ok(())
    }

    // `A BYTES` after a line's first word: puts the bytes at A, if so many are lent.
    pub fn poke(&mut self, line: &[u8]) -> Result<(), Why>
        ensures { self.new.count ≡ self.old.count }
    {
        let count = self.count;
        poke(line, &mut self.all[..count])
    }
}
