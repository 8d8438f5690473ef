// What is held between requests, a design, lent work and lent rows, and the requests that change it: they have no answer.
#![tactic(auto)]

mod lent;
mod requests;

ghost use Rattle.std.specs.Prelude.{◌≡◌, OnErr};
ghost use Rattle.keeping.specs.Keeps.{held_on, Granted};

pub use lent::Lent;
pub use requests::{Request, is_kept, request_in};
use rules::Design;
use spelling::{design_in, no_design};
use words::Why;

// What is held: a design, and how many bytes of work and of rows are lent.
#[derive(Clone, Copy)]
pub struct Held {
    pub design: Design,
    pub work: usize,
    pub rows: usize,
}

// Where it is held: the design, and the bytes of work and of rows that are lent.
#[derive(Drop)]
pub struct Desk<'a> {
    pub design: Design,
    pub work: Lent<'a>,
    pub rows: Lent<'a>,
}

impl<'a> Desk<'a> {
    // What is held at the start: a design of zeros, and no bytes of these.
    pub fn nothing(work: &'a mut [u8], rows: &'a mut [u8]) -> Desk<'a>
        ensures { (result.work.count ≡ 0) × (result.rows.count ≡ 0) }
    {
        Desk {
            design: no_design(),
            work: Lent::none(work),
            rows: Lent::none(rows),
        }
    }

    // What is held here.
    pub fn held(&self) -> Held
        ensures { result ≡ held_on self.now }
    {
        Held {
            design: self.design,
            work: self.work.count,
            rows: self.rows.count,
        }
    }

    // Does what a line's request asks, and changes nothing else that is held; where the line is bad, all that is held stays.
    pub fn keep(&mut self, request: Request, line: &[u8]) -> Result<(), Why>
        ensures granted { Granted request (held_on self.old) (held_on self.new) }
        ensures bad { OnErr result (held_on self.new ≡ held_on self.old) }
    {
        match request {
            Request::Nothing => Ok(()),
            Request::Design => {
                self.design = design_in(line)?;
                Ok(())
            }
            Request::Work => self.work.lend(line),
            Request::Rows => self.rows.lend(line),
            Request::Poke => self.work.poke(line),
            Request::Row => self.rows.poke(line),
        }
    }
}
