// The score of a floorplan in rows: whether terms and nets are lawful, the amounts, and the running total over the terms.
#![tactic(auto)]

mod amounts;
mod nets;
mod terms;

ghost use Rattle.std.specs.Prelude.{◌≡◌, ◌≤◌};
ghost use Rattle.rules.specs.Check.{from_rows};
ghost use Rattle.rules.specs.Score.{most_terms, with_term, score_of};
ghost use Rattle.scoring.specs.Amounts.{after_term, after_terms, Ready};

use amounts::{Amounts, amounts_of};
pub use nets::are_nets;
use rules::{Cost, Design, Score, Term};
pub use terms::are_terms;

// The score with an amount more.
fn with_amount(score: Score, amount: f64, weight: f64) -> Score
    ensures { result ≡ with_term score amount weight }
{
    Score {
        total: score.total + amount * weight,
        last: amount,
    }
}

// The score with a term more.
fn after_term(score: Score, amounts: Amounts, term: Term) -> Score
    ensures { result ≡ after_term score amounts term }
{
    match term {
        Term::Area(w) => with_amount(score, amounts.area, w),
        Term::Ratio(w) => with_amount(score, amounts.ratio, w),
        Term::Wire(w) => with_amount(score, amounts.wire, w),
    }
}

// The score of the terms, in list order.
fn score_terms(amounts: Amounts, cost: Cost) -> Score
    requires { cost.term_count ≤ most_terms }
    ensures { result ≡ after_terms amounts cost.terms cost.term_count }
{
    let mut score = Score {
        total: 0.0,
        last: 0.0,
    };
    for term in &cost.terms[..cost.term_count] {
        score = after_term(score, amounts, *term);
    }
    score
}

// The score of a floorplan in rows.
pub fn score_rows(design: Design, rows: &[u8], cost: Cost) -> Score
    requires { Ready design rows.now cost }
    ensures { result ≡ score_of design (from_rows rows.now) cost }
{
    score_terms(amounts_of(design, rows, cost), cost)
}
