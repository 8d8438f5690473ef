// The terms and nets that a line says after its first word, put into places. There are places for one term, one net and in each
// net one member more than a score may have, so that the service sees what is too many; what has no place is judged as words all
// the same.
ghost use Rattle.std.specs.Prelude.{◌≡◌, ◌≤◌, take};
ghost use Rattle.spelling.specs.Placed.{term_places, net_places};

use rules::{MOST_MODULES, MOST_NETS, MOST_TERMS};
use words::{Why, number_in, weight_in};

pub const TERM_PLACES: usize = MOST_TERMS + 1;

// A net takes a byte for the number of its members, and one for each.
pub const NET_PLACES: usize = (MOST_NETS + 1) * (MOST_MODULES + 2);

// stays: (a) no heap: fixed places, their number beside them; score_slices, which C calls, takes kinds and weights as two slices.
// Terms and nets in their places: how many terms and how many bytes of nets are put, and where the last net stands.
#[derive(Clone, Copy)]
pub struct Places {
    kinds: [u8; TERM_PLACES],
    weights: [f64; TERM_PLACES],
    terms: usize,
    nets: [u8; NET_PLACES],
    bytes: usize,
    net: usize,
    ghost of_terms: { terms ≤ term_places },
    ghost of_nets: { bytes ≤ net_places },
    ghost of_last: { net ≤ net_places },
}

impl Places {
    fn new() -> Places {
        Places {
            kinds: [0; TERM_PLACES],
            weights: [0.0; TERM_PLACES],
            terms: 0,
            nets: [0; NET_PLACES],
            bytes: 0,
            net: 0,
        }
    }

    // The terms' kinds: 0 area, 1 ratio, 2 wire.
    pub fn kinds(&self) -> &[u8]
        ensures { result.now ≡ take self.now.terms self.now.kinds }
    {
        &self.kinds[..self.terms]
    }

    // Their weights.
    pub fn weights(&self) -> &[f64]
        ensures { result.now ≡ take self.now.terms self.now.weights }
    {
        &self.weights[..self.terms]
    }

    // The nets, one after another.
    pub fn nets(&self) -> &[u8]
        ensures { result.now ≡ take self.now.bytes self.now.nets }
    {
        &self.nets[..self.bytes]
    }

    fn add_term(&mut self, kind: u8, weight: f64) {
        let at = self.terms;
        if at < TERM_PLACES {
            self.kinds[at] = kind;
            self.weights[at] = weight;
            self.terms = at + 1;
        }
    }

    fn add_byte(&mut self, b: u8) {
        let at = self.bytes;
        if at < NET_PLACES {
            self.nets[at] = b;
            self.bytes = at + 1;
        }
    }

    // One net more, still without members.
    fn add_net(&mut self) {
        self.net = self.bytes;
        self.add_byte(0);
    }

    // One member more in the last net, which is not put once there are too many. One that is no byte is no module either, and
    // neither is the greatest byte.
    fn add_member(&mut self, module: usize) {
        let Some(count) = self.nets.get_mut(self.net) else {
            return;
        };
        if *count as usize <= MOST_MODULES {
            *count += 1;
            self.add_byte(u8::try_from(module).unwrap_or(u8::MAX));
        }
    }

    // Takes a word, and says what the next one is to be.
    fn take(&mut self, expected: Expected, word: &[u8]) -> Result<Expected, Why> {
        match (expected, word) {
            (Expected::Weight(kind), _) => {
                self.add_term(kind, weight_in(word)?);
                Ok(Expected::Begin)
            }
            (_, b"area") => Ok(Expected::Weight(0)),
            (_, b"ratio") => Ok(Expected::Weight(1)),
            (_, b"wire") => Ok(Expected::Weight(2)),
            (_, b"net") => {
                self.add_net();
                Ok(Expected::Member)
            }
            (Expected::Member, _) => {
                self.add_member(number_in(word)?);
                Ok(Expected::Member)
            }
            (Expected::Begin, _) => Err(Why::NoRequest),
        }
    }
}

// What the next word is to be: one that begins a term or a net, the weight of a term of this kind, or a member, which may as well
// be one that begins something.
#[derive(Clone, Copy)]
enum Expected {
    Begin,
    Weight(u8),
    Member,
}

// Takes the words after a line's first, from the left, up to one that is wrong. At the line's end no weight may be left to come.
pub fn score_in(line: &[u8]) -> Result<Places, Why> {
    let mut places = Places::new();
    let mut expected = Expected::Begin;
    for word in line.split(|b| *b == b' ').skip(1) {
        expected = places.take(expected, word)?;
    }
    match expected {
        Expected::Weight(_) => Err(Why::WrongCount),
        Expected::Begin | Expected::Member => Ok(places),
    }
}
