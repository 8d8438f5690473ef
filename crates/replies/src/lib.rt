// The number of each reply.
#![tactic(auto)]

ghost use Rattle.std.specs.Prelude.{◌≡◌};
ghost use Rattle.rules.specs.Reply.{refusal};

use rules::Refusal;

// A refusal's number, and beside it the position, module or token's position that it holds, or 0.
#[derive(Clone, Copy)]
// stays: (a) the numbers of 01's table, which C and the programs' texts have; number_of's clause and its edits speak of both.
pub struct Numbered(pub usize, pub usize);

// The number of a refusal, and what is said beside it.
pub fn number_of(e: Refusal) -> Numbered
    ensures { (result.0 ≡ (refusal e).number) × (result.1 ≡ (refusal e).value) }
{
    match e {
        Refusal::Unfinished(at) => Numbered(1, at),
        Refusal::Malformed(at) => Numbered(2, at),
        Refusal::WrongForm(at) => Numbered(3, at),
        Refusal::BreaksLimits(at) => Numbered(4, at),
        Refusal::BadToken(at) => Numbered(5, at),
        Refusal::NotOneThing(at) => Numbered(6, at),
        Refusal::ExtraBytes(at) => Numbered(7, at),
        Refusal::TooShort => Numbered(8, 0),
        Refusal::Unreliable => Numbered(9, 0),
        Refusal::NoPlacement => Numbered(10, 0),
        Refusal::NoSuchEdit => Numbered(11, 0),
        Refusal::OffTheChip(k) => Numbered(12, k),
        Refusal::ShortOfNeed(k) => Numbered(13, k),
        Refusal::CutNotKept(t) => Numbered(14, t),
        Refusal::BadTerm => Numbered(15, 0),
        Refusal::BadNet => Numbered(16, 0),
    }
}
