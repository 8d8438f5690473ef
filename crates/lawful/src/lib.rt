// The tests of a design handed over as a value, which every service runs first: 01's limits, then its tree rules, in file order.
#![tactic(auto)]

ghost use Rattle.std.specs.Prelude.{◌≡◌, ◌*◌, ◌≤◌, ◌<◌, leb};
ghost use Rattle.rules.specs.Search.{all};
ghost use Rattle.rules.specs.Chip.{kind_at};
ghost use Rattle.rules.specs.Design.{most_tokens, most_columns, last_kind, most_modules, need_at, nodes, standing_of, in_range, lawful_need, within_limits, tree_test, lawful_chip};
ghost use Rattle.lawful.specs.Tested.{Tested};
ghost use Rattle.lawful.specs.Stack.{empty_stack, after_cut, after_module, after_token};

use rules::{
    Chip, Design, LAST_KIND, MOST_COLUMNS, MOST_MODULES, MOST_NUMBER, MOST_ROWS, Need, Refusal,
    Token,
};
use tokens::token_of;

// Of the things that the tokens read so far leave standing: the modules in them, and how many things they are.
#[derive(Clone, Copy)]
pub struct Stack {
    pub seen: [bool; MOST_MODULES],
    pub count: usize,
}

// A number is within its limits.
#[tactic(auto, unfolding(rules::specs::Design::in_range))]
pub fn in_range(low: usize, most: usize, n: usize) -> bool
    ensures { result ≡ in_range low most n }
{
    low <= n && n <= most
}

// A need is within the limits, and not all zero.
#[tactic(auto, unfolding(rules::specs::Design::lawful_need))]
pub fn lawful_need(n: Need) -> bool
    ensures { result ≡ lawful_need n }
{
    n.clbs <= MOST_NUMBER
        && n.rams <= MOST_NUMBER
        && n.multipliers <= MOST_NUMBER
        && (n.clbs != 0 || n.rams != 0 || n.multipliers != 0)
}

// Every column of the chip has one of the kinds.
fn kinds_ok(chip: Chip) -> bool
    requires { chip.width.0 ≤ most_columns }
    ensures { result ≡ all chip.width.0 (λ x. leb (kind_at chip x) last_kind) }
{
    chip.kinds[..chip.width.0]
        .iter()
        .all(|kind| *kind <= LAST_KIND)
}

// The chip is within the limits, tested in file order.
#[tactic(auto, unfolding(rules::specs::Design::in_range, rules::specs::Design::lawful_chip))]
fn lawful_chip(chip: Chip) -> bool
    ensures { result ≡ lawful_chip chip }
{
    in_range(1, MOST_COLUMNS, chip.width.0)
        && in_range(1, MOST_ROWS, chip.height.0)
        && in_range(1, chip.height.0, chip.block.0)
        && kinds_ok(chip)
}

// Every module's need is lawful.
fn needs_ok(d: Design) -> bool
    requires { d.modules ≤ most_modules }
    ensures { result ≡ all d.modules (λ k. lawful_need (need_at d k)) }
{
    d.needs[..d.modules].iter().all(|need| lawful_need(*need))
}

// The design is within the limits, tested in file order.
#[tactic(auto, unfolding(rules::specs::Design::in_range, rules::specs::Design::within_limits))]
pub fn within_limits(d: Design) -> bool
    ensures { result ≡ within_limits d }
{
    lawful_chip(d.chip) && in_range(1, MOST_MODULES, d.modules) && needs_ok(d)
}

// Nothing stands.
#[tactic(auto, unfolding(crate::specs::Stack::empty_stack))]
pub fn empty_stack() -> Stack
    ensures { result ≡ empty_stack }
{
    let seen = [false; MOST_MODULES];
    Stack { seen, count: 0 }
}

// A cut joins the two things standing last, if there are two.
#[tactic(auto, unfolding(crate::specs::Stack::after_cut))]
fn after_cut(stack: Stack) -> Option<Stack>
    ensures { result ≡ after_cut stack }
{
    if stack.count < 2 {
        return None;
    }
    Some(Stack {
        count: stack.count - 1,
        ..stack
    })
}

// A module stands, if it is one of m and does not stand yet.
#[tactic(auto, unfolding(crate::specs::Stack::after_module))]
fn after_module(m: usize, k: usize, stack: Stack) -> Option<Stack>
    requires { (m ≤ most_modules) × (stack.count ≤ most_tokens) }
    ensures { result ≡ after_module m k stack }
{
    if m <= k || stack.seen[k] {
        return None;
    }
    let mut seen = stack.seen;
    seen[k] = true;
    Some(Stack {
        seen,
        count: stack.count + 1,
    })
}

// What stands after a token, of m modules, unless it is refused. No more tokens were read than a design has, so the count
// can grow.
pub fn after_token(m: usize, token: Token, stack: Stack) -> Option<Stack>
    requires { (m ≤ most_modules) × (stack.count ≤ most_tokens) }
    ensures { result ≡ after_token m token stack }
{
    match token {
        Token::Cut(_) => after_cut(stack),
        Token::Module(k) => after_module(m, k, stack),
        Token::Beyond => None,
    }
}

// The tree rules over the design's tokens: 5 at the first that is refused, 6 if then not exactly one thing stands.
fn tree_test(d: Design) -> Result<(), Refusal>
    requires { (1 ≤ d.modules) × (d.modules ≤ most_modules) }
    ensures { result ≡ tree_test (standing_of d (nodes d)) }
{
    let m = d.modules;
    let mut stack = empty_stack();
    for token in &d.tokens[..2 * m - 1] {
        stack = after_token(m, token_of(*token), stack).ok_or(Refusal::BadToken(0))?;
    }
    if stack.count != 1 {
        return Err(Refusal::NotOneThing(0));
    }
    Ok(())
}

// The tests that every service runs first: 4 for the limits, then 5 or 6 for the tree, each at position 0.
#[tactic(auto, using(rules::proofs::Nodes::modules_within), unfolding(rules::specs::Design::value_test))]
pub fn value_test(d: Design) -> Result<(), Refusal>
    ensures { Tested d result }
{
    if !within_limits(d) {
        return Err(Refusal::BreaksLimits(0));
    }
    tree_test(d)
}
