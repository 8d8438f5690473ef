// Many inputs in one, for the programs that run another program on each. A case is two bytes with its length, the low one first, and
// then its bytes.
#![tactic(auto)]

ghost use Rattle.std.specs.Prelude.{◌≡◌, length, MatchOption, Some, None};
ghost use Rattle.std.specs.Iterator.{at_most};
ghost use Rattle.cases.specs.Case.{first_case};

// The most bytes of cases that a program reads.
pub const MOST_CASES: usize = 65536;

// The cases in some bytes, one after the other. The last has all that is left where its length says more.
#[derive(Drop)]
pub struct Cases<'a>(pub &'a [u8]);

impl<'a> Iterator for Cases<'a> {
    type Item = &'a [u8];

    ghost next_gives = { λ s r t. MatchOption r (first_case s.0.now ≡ None)
        (λ case. first_case s.0.now ≡ Some (case.now, t.0.now)) };

    ghost remaining = { λ s. at_most (length s.0.now) };

    fn next(&mut self) -> Option<&'a [u8]> {
        let [low, high, rest @ ..] = self.0 else {
            return None;
        };
        let length = usize::from(u16::from_le_bytes([*low, *high]));
        let (case, rest) = rest.split_at(length.min(rest.len()));
        self.0 = rest;
        Some(case)
    }
}
