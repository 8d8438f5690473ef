// Which number of a design stands where in its bytes, and what it is called.
#![tactic(auto)]

mod names;

ghost use Rattle.std.specs.Prelude.{◌≡◌};
ghost use Rattle.fields.specs.Order.{after_number, value_at, place_of, need_number, need_or_token, after_kinds, field_of};

use numbers::take_number;
use rules::MOST_COLUMNS;

// The numbers of a design, in the order of its bytes, and what follows them. Columns and modules are counted from 0, as everywhere;
// a token is said as the first, second .. of so many.
#[derive(Clone, Copy)]
pub enum Field {
    Form,
    Width,
    Height,
    Block,
    Kind(usize),
    Modules,
    Clbs(usize),
    Rams(usize),
    Multipliers(usize),
    Token { number: usize, of: usize },
    After,
}

// A number among those of the bytes, counted from 0, and the position where it begins.
#[derive(Clone, Copy)]
pub struct Place {
    pub index: usize,
    pub at: usize,
}

// stays: (a) the definitions of specs/Order speak of bytes and a place in them, here and below.
// The position after the number at `at`, or `at` if no number stands there.
#[tactic(auto, unfolding(crate::specs::Order::after_number), using(numbers::proofs::Answers::was_taken, numbers::proofs::Answers::was_refused))]
fn after_number(s: &[u8], at: usize) -> usize
    ensures { result ≡ after_number s.now at }
{
    match take_number(s, at) {
        Ok(taken) => taken.next,
        Err(_) => at,
    }
}

// The value of the number at `at`, if one stands there.
#[tactic(auto, unfolding(crate::specs::Order::value_at), using(numbers::proofs::Answers::was_taken, numbers::proofs::Answers::was_refused))]
pub fn value_at(s: &[u8], at: usize) -> Option<usize>
    ensures { result ≡ value_at s.now at }
{
    match take_number(s, at) {
        Ok(taken) => Some(taken.value),
        Err(_) => None,
    }
}

// Where number n begins, counted from 0.
#[tactic(auto, unfolding(crate::specs::Order::place_of))]
fn place_of(s: &[u8], n: usize) -> usize
    ensures { result ≡ place_of s.now n }
{
    let mut at = 0;
    // stays: (d) a chain of successors is no plainer; numbers are counted here and in number_from, and no slice is indexed
    for _ in 0..n {
        at = after_number(s, at);
    }
    at
}

// The value of number n, counted from 0, if the bytes have such a number.
pub fn value_of(s: &[u8], n: usize) -> Option<usize>
    ensures { result ≡ value_at s.now (place_of s.now n) }
{
    value_at(s, place_of(s, n))
}

// The first number that begins at a position or after it. A number takes at least a byte, so no more are passed than there are bytes.
#[tactic(auto, unfolding(crate::specs::Order::place_of))]
pub fn number_from(s: &[u8], position: usize) -> Place
    ensures { result.at ≡ place_of s.now result.index }
{
    let mut at = 0;
    for index in 0..s.len() {
        if position <= at {
            return Place { index, at };
        }
        at = after_number(s, at);
    }
    Place { index: s.len(), at }
}

// A need's numbers.
fn need_number(k: usize, which: usize) -> Field
    ensures { result ≡ need_number k which }
{
    match which {
        0 => Field::Clbs(k),
        1 => Field::Rams(k),
        _ => Field::Multipliers(k),
    }
}

// After m: three numbers for each module, then the tokens.
#[tactic(auto, unfolding(crate::specs::Order::need_or_token))]
fn need_or_token(m: usize, n: usize) -> Field
    ensures { result ≡ need_or_token m n }
{
    let k = n / 3;
    if k < m {
        return need_number(k, n % 3);
    }
    if m == 0 {
        return Field::After;
    }
    let number = n - 3 * m + 1;
    if number < 2 * m {
        return Field::Token {
            number,
            of: 2 * m - 1,
        };
    }
    Field::After
}

// After the kinds: m, and what follows it.
fn after_kinds(m: usize, n: usize) -> Field
    ensures { result ≡ after_kinds m n }
{
    if n == 0 {
        return Field::Modules;
    }
    need_or_token(m, n - 1)
}

// What number n is, counted from 0, in a design of w columns and m modules.
pub fn field_of(w: usize, m: usize, n: usize) -> Field
    ensures { result ≡ field_of w m n }
{
    match n {
        0 => Field::Form,
        1 => Field::Width,
        2 => Field::Height,
        3 => Field::Block,
        _ => {
            let x = n - 4;
            if x < w {
                Field::Kind(x)
            } else {
                after_kinds(m, x - w)
            }
        }
    }
}

// W and m as the bytes say them, 0 where they do not.
#[derive(Clone, Copy)]
// stays: (a) `field_of`, which theorems speak of, takes numbers, and there no column and no module stand: so 0 for none.
pub struct Sizes {
    pub width: usize,
    pub modules: usize,
}

// A width past its limit has no m after it: reading ends there.
pub fn sizes_of(s: &[u8]) -> Sizes {
    let width = value_of(s, 1).unwrap_or(0);
    if width > MOST_COLUMNS {
        return Sizes { width, modules: 0 };
    }
    Sizes {
        width,
        modules: value_of(s, 4 + width).unwrap_or(0),
    }
}

// What the number is that begins at a position.
pub fn field_at(s: &[u8], position: usize) -> Field {
    let sizes = sizes_of(s);
    let place = number_from(s, position);
    field_of(sizes.width, sizes.modules, place.index)
}
