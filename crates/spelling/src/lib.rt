// Designs, edits and scores' terms and nets as words: taken from a line, and a design put as such words.
#![tactic(auto)]

mod edits;
mod said;
mod scores;
mod told;

pub use edits::edit_in;
use rules::{Chip, Columns, Design, MOST_COLUMNS, MOST_MODULES, MOST_TOKENS, Need, Rows};
pub use said::design_in;
pub use scores::{NET_PLACES, Places, TERM_PLACES, score_in};
pub use told::{Told, token_count};

// How many numbers a need has, and how many all needs have.
const NEED_NUMBERS: usize = 3;

const MOST_NUMBERS: usize = NEED_NUMBERS * MOST_MODULES;

// The need of zeros.
fn no_need() -> Need {
    Need {
        clbs: 0,
        rams: 0,
        multipliers: 0,
    }
}

// The design of zeros.
pub fn no_design() -> Design {
    let chip = Chip {
        width: Columns(0),
        height: Rows(0),
        block: Rows(0),
        kinds: [0u8; MOST_COLUMNS],
    };
    Design {
        chip,
        modules: 0,
        needs: [no_need(); MOST_MODULES],
        tokens: [0u8; MOST_TOKENS],
    }
}
