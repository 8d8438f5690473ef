// The signs of a picture: of the modules, and of the kinds of columns.
use blocks::Kind;

// Digits, then small letters, then capitals, then two more; any module after those has the last sign, and none of the signs is
// that of a cell without a module.
pub fn sign_of(k: usize) -> char {
    let sign = match k {
        0..=9 => b'0' + k as u8,
        10..=35 => b'a' + (k - 10) as u8,
        36..=61 => b'A' + (k - 36) as u8,
        62 => b'@',
        63 => b'#',
        _ => b'?',
    };
    sign as char
}

// The letter of a kind of column.
pub fn letter_of(kind: Kind) -> char {
    match kind {
        Kind::Clb => 'C',
        Kind::Ram => 'R',
        Kind::Multiplier => 'M',
    }
}
