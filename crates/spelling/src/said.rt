// The design that a line says after its first word: W H B KINDS M NEEDS TOKENS.
use crate::{MOST_NUMBERS, NEED_NUMBERS, no_need};
use rules::{Chip, Columns, Design, MOST_COLUMNS, MOST_MODULES, MOST_TOKENS, Need, Rows};
use words::{Why, bytes_in, number_in, numbers_in, word, words};

// The needs of these numbers, three for each module.
fn needs_of(values: [usize; MOST_NUMBERS]) -> [Need; MOST_MODULES] {
    let mut needs = [no_need(); MOST_MODULES];
    let (values, _) = values.as_chunks::<NEED_NUMBERS>();
    for (need, [clbs, rams, multipliers]) in needs.iter_mut().zip(values) {
        *need = Need {
            clbs: *clbs,
            rams: *rams,
            multipliers: *multipliers,
        };
    }
    needs
}

// NEEDS: numbers with commas between, or `-` for none; places that are not given are zero.
fn needs_in(word: &[u8]) -> Result<[Need; MOST_MODULES], Why> {
    let mut values = [0usize; MOST_NUMBERS];
    if word != b"-".as_slice() {
        numbers_in(b',', word, &mut values)?;
    }
    Ok(needs_of(values))
}

// W H B KINDS, the first of those words; places that are not given are zero.
fn chip_in(line: &[u8]) -> Result<Chip, Why> {
    let mut sizes = [0usize; 3];
    let mut kinds = [0u8; MOST_COLUMNS];
    numbers_in(b' ', words(line, 1, 3), &mut sizes)?;
    bytes_in(word(line, 4), &mut kinds)?;
    let [width, height, block] = sizes;
    Ok(Chip {
        width: Columns(width),
        height: Rows(height),
        block: Rows(block),
        kinds,
    })
}

// The design in the seven words after a line's first.
pub fn design_in(line: &[u8]) -> Result<Design, Why> {
    let chip = chip_in(line)?;
    let modules = number_in(word(line, 5))?;
    let needs = needs_in(word(line, 6))?;
    let mut tokens = [0u8; MOST_TOKENS];
    bytes_in(word(line, 7), &mut tokens)?;
    Ok(Design {
        chip,
        modules,
        needs,
        tokens,
    })
}
