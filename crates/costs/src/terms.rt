// Terms from their kinds and weights.
ghost use Rattle.std.specs.Prelude.{◌≡◌, length};
ghost use Rattle.rules.specs.Score.{most_terms};
ghost use Rattle.costs.specs.Slices.{no_term, term_of, terms_in};
ghost use Rattle.costs.specs.Places.{pairs, TermsFrom};

use rules::{MOST_TERMS, Term};

// What is no term: no number is its weight.
fn no_term() -> Term
    ensures { result ≡ no_term }
{
    Term::Area(f64::NAN)
}

// stays: (a) a kind is a number here since score_slices takes kinds so, whose theorems (kind_number) and C interface hold it.
// The term of a kind: 0 area, 1 ratio, 2 wire.
fn term_of(kind: u8, weight: f64) -> Term
    ensures { result ≡ term_of kind weight }
{
    match kind {
        0 => Term::Area(weight),
        1 => Term::Ratio(weight),
        2 => Term::Wire(weight),
        _ => no_term(),
    }
}

// How many kinds have a weight, of those that there are places for.
fn pair_count(kinds: &[u8], weights: &[f64]) -> usize
    ensures { result ≡ pairs kinds.now weights.now }
{
    kinds.len().min(weights.len()).min(MOST_TERMS)
}

// stays: (c) one index into three rows; through iter_mut and zip a proof knows no element afterwards, which TermsFrom speaks of.
// The terms, in their places.
pub fn terms_in(kinds: &[u8], weights: &[f64]) -> [Term; MOST_TERMS]
    ensures { TermsFrom kinds.now weights.now result }
{
    let mut terms = [no_term(); MOST_TERMS];
    for i in 0..pair_count(kinds, weights) {
        terms[i] = term_of(kinds[i], weights[i]);
    }
    terms
}

// How many terms there are, one more where a kind or a weight is left over.
pub fn term_count(kinds: &[u8], weights: &[f64]) -> usize
    ensures { result ≡ length (terms_in most_terms kinds.now weights.now) }
{
    let n = pair_count(kinds, weights);
    if kinds.len() != n || weights.len() != n {
        return n + 1;
    }
    n
}
