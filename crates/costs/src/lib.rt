// A score asked by slices: kinds and weights as two, nets as bytes n k1..kn one after another. What is no term or net there
// becomes a term or a net that no score is given for.
#![tactic(auto)]

mod nets;
mod terms;

ghost use Rattle.rules.specs.Service.{Scores};
ghost use Rattle.lending.specs.Lent.{given};
ghost use Rattle.costs.specs.Slices.{cost_in};

use cellweaver::score;
use nets::nets_in;
use rules::{Cost, Design, Refusal, Score};
use terms::{term_count, terms_in};

// The score of a floorplan in rows, by terms and nets in slices.
pub fn score_slices(
    design: Design,
    rows: &[u8],
    kinds: &[u8],
    weights: &[f64],
    nets: &[u8],
) -> Result<Score, Refusal>
    ensures { Scores design (given rows) (cost_in (given kinds) (given weights) (given nets)) result }
{
    let terms = terms_in(kinds, weights);
    let count = term_count(kinds, weights);
    let taken = nets_in(nets);
    let places = taken.nets;
    let cost = Cost {
        terms,
        term_count: count,
        nets: places,
        net_count: taken.count,
    };
    score(design, rows, cost)
}
