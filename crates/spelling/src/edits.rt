// The edit that a line says: `edit turn T`, or `edit need K CLBS RAMS MULTIPLIERS`.
use rules::{Edit, Need};
use words::{Why, count, number_in, numbers_in, word, words};

// T, the word after `turn`.
fn turn_in(line: &[u8]) -> Result<Edit, Why> {
    let position = number_in(word(line, 2))?;
    Ok(Edit::Turn { position })
}

// K CLBS RAMS MULTIPLIERS, the words after `need`.
fn need_in(line: &[u8]) -> Result<Edit, Why> {
    let mut said = [0usize; 4];
    numbers_in(b' ', words(line, 2, 5), &mut said)?;
    let [module, clbs, rams, multipliers] = said;
    let need = Need {
        clbs,
        rams,
        multipliers,
    };
    Ok(Edit::Change { module, need })
}

// The edit in a line whose first word is `edit`, by how many words it has.
pub fn edit_in(line: &[u8]) -> Result<Edit, Why> {
    match (count(line), word(line, 1)) {
        (3, b"turn") => turn_in(line),
        (6, b"need") => need_in(line),
        (3 | 6, _) => Err(Why::NoRequest),
        _ => Err(Why::WrongCount),
    }
}
