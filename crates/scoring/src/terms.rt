// Terms: their weights, and whether they are lawful.
ghost use Rattle.std.specs.Prelude.{◌≡◌};
ghost use Rattle.rules.specs.Score.{lawful_weight, lawful_terms, weight_of};

use rules::{Cost, MOST_TERMS, Term};

// A weight from 0 to 1,000,000. What is no number passes no comparison.
fn is_weight(w: f64) -> bool
    ensures { result ≡ lawful_weight w }
{
    0.0 <= w && w <= 1000000.0
}

// A term's weight.
fn weight_of(term: Term) -> f64
    ensures { result ≡ weight_of term }
{
    match term {
        Term::Area(w) => w,
        Term::Ratio(w) => w,
        Term::Wire(w) => w,
    }
}

// The terms are no more than there may be, and lawful.
pub fn are_terms(cost: Cost) -> bool
    ensures { result ≡ lawful_terms cost.terms cost.term_count }
{
    if MOST_TERMS < cost.term_count {
        return false;
    }
    for term in &cost.terms[..cost.term_count] {
        if !is_weight(weight_of(*term)) {
            return false;
        }
    }
    true
}
