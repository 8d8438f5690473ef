// The tree of a lawful design as positions: the left child of each cut, the leaf of a module, and the way from a node up to the root.
// The right child of a cut is always the node just before it.
#![tactic(auto)]

ghost use Rattle.std.specs.Prelude.{◌≡◌, ◌+◌, ◌<◌, get_or, position};
ghost use Rattle.std.proofs.Math.Bool.{So};
ghost use Rattle.rules.specs.Tree.{is_cut, is_module, token_of};
ghost use Rattle.rules.specs.Design.{most_modules, most_tokens, LawfulDesign};
ghost use Rattle.rules.specs.Edit.{module_position};
ghost use Rattle.trees.specs.Positions.{LeftChildren, WayUp, mark_of};

use rules::{Design, MOST_TOKENS, Token};
use tokens::{is_cut, is_module, token_of};

// Where the last thing but one stands before each token: for a cut, its left child.
// stays: (a) no heap: the tree is 01's positions in arrays, here and below; two are read at places before t.
#[tactic(auto, using(rules::proofs::Limits::limits))]
pub fn left_children(design: Design) -> [u8; MOST_TOKENS]
    requires { LawfulDesign design }
    ensures { LeftChildren design result }
{
    let nodes = 2 * design.modules - 1;
    let mut lefts = [0u8; MOST_TOKENS];
    for t in 2..nodes {
        if is_cut(token_of(design.tokens[t - 1])) {
            let left = lefts[t - 1] as usize;
            lefts[t] = lefts[left + 1];
        } else {
            lefts[t] = (t - 2) as u8;
        }
    }
    lefts
}

// The position of the first token that is module k's.
fn first_of(tokens: &[u8], k: usize) -> Option<usize>
    ensures { result ≡ position (λ v. is_module k (token_of most_modules v)) tokens.now }
{
    tokens
        .iter()
        .position(|token| is_module(token_of(*token), k))
}

// The position of module k's token.
#[tactic(auto, using(rules::proofs::Limits::limits))]
pub fn position_of(design: Design, k: usize) -> usize
    requires { LawfulDesign design × (k < design.modules) }
    ensures { result ≡ module_position design k }
{
    let nodes = 2 * design.modules - 1;
    first_of(&design.tokens[..nodes], k).unwrap_or(nodes)
}

// Whether node t is the one at a position, or a cut above it: a cut is, if one of its children is.
#[tactic(auto, unfolding(crate::specs::Positions::mark_of))]
fn mark_of(
    token: Token,
    lefts: [u8; MOST_TOKENS],
    marks: [bool; MOST_TOKENS],
    t: usize,
    at: usize,
) -> bool
    requires { (t < most_tokens) × (So (is_cut token) → get_or lefts t 0 + 1 < t) }
    ensures { result ≡ mark_of token lefts marks t at }
{
    at == t || (is_cut(token) && (marks[lefts[t] as usize] || marks[t - 1]))
}

// Marks the nodes on the way from a position up to the root.
#[tactic(auto, using(rules::proofs::Limits::limits))]
pub fn way_up(design: Design, lefts: [u8; MOST_TOKENS], at: usize) -> [bool; MOST_TOKENS]
    requires { LawfulDesign design × LeftChildren design lefts }
    ensures { WayUp design at result }
{
    let nodes = 2 * design.modules - 1;
    let mut marks = [false; MOST_TOKENS];
    for (t, token) in design.tokens[..nodes].iter().enumerate() {
        let mark = mark_of(token_of(*token), lefts, marks, t, at);
        marks[t] = mark;
    }
    marks
}
