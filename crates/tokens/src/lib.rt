// Tokens: what a number says as a token, told by one match, and what a cut is turned into.
#![tactic(auto)]

ghost use Rattle.std.specs.Prelude.{◌≡◌};
ghost use Rattle.rules.specs.Tree.{token_of, number_of, is_cut, is_module};
ghost use Rattle.rules.specs.Design.{most_modules};
ghost use Rattle.rules.specs.Edit.{other};

use rules::{Direction, MOST_MODULES, Token};

// The number of the largest module's token.
const LAST_MODULE: usize = MOST_MODULES + 1;

// What a number says as a token: a cut, a module, or a value beyond the largest module's.
// stays: (a) 01 wants this match with ranges; a From or Not, here and below, belongs in rules, which has no function (ARCHITECTURE).
pub fn token_of_number(v: usize) -> Token
    ensures { result ≡ token_of most_modules v }
{
    match v {
        0 => Token::Cut(Direction::Vertical),
        1 => Token::Cut(Direction::Horizontal),
        2..=LAST_MODULE => Token::Module(v - 2),
        _ => Token::Beyond,
    }
}

// The same of a design's byte.
pub fn token_of(v: u8) -> Token
    ensures { result ≡ token_of most_modules v }
{
    token_of_number(v as usize)
}

// The token is a cut.
pub fn is_cut(token: Token) -> bool
    ensures { result ≡ is_cut token }
{
    matches!(token, Token::Cut(_))
}

// The token is module k's.
pub fn is_module(token: Token, k: usize) -> bool
    ensures { result ≡ is_module k token }
{
    matches!(token, Token::Module(j) if j == k)
}

// The other kind of cut.
pub fn other(cut: Direction) -> Direction
    ensures { result ≡ other cut }
{
    match cut {
        Direction::Vertical => Direction::Horizontal,
        Direction::Horizontal => Direction::Vertical,
    }
}

// The byte that a cut is written as.
pub fn byte_of_cut(cut: Direction) -> u8
    ensures { result ≡ number_of most_modules (Token.Cut cut) }
{
    cut as u8
}
