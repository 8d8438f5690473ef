// The kinds of columns.
ghost use Rattle.std.specs.Prelude.{◌≡◌};

use std::fmt;

// What a column's blocks are. A chip has a number for it: 0, 1 and 2.
#[derive(Clone, Copy, PartialEq, Eq)]
pub enum Kind {
    Clb,
    Ram,
    Multiplier,
}

impl From<u8> for Kind {
    ghost use Rattle.std.specs.Prelude.{◌≡◌};
    ghost use Rattle.blocks.specs.Kind.{kind_of};

    ghost from_gives = { λ b kind. kind ≡ kind_of b };

    fn from(b: u8) -> Kind {
        match b {
            0 => Kind::Clb,
            1 => Kind::Ram,
            _ => Kind::Multiplier,
        }
    }
}

impl fmt::Display for Kind {
    fn fmt<W: fmt::Write>(&self, f: &mut fmt::Formatter<W>) -> fmt::Result {
        f.write_str(match self {
            Kind::Clb => "CLB",
            Kind::Ram => "RAM",
            Kind::Multiplier => "multiplier",
        })
    }
}
