// Weights: an f64 by its bits, or a whole number.
use crate::bytes::bytes_in;
use crate::numbers::number_in;
use crate::why::Why;
use std::num::{f64_from_bits_with_nan, nearest_usize_to_f64};

// A word of so many letters says bits, in hexadecimal, and these are so many bytes.
const BITS_DIGITS: usize = 16;

const BITS_BYTES: usize = 8;

// A whole number has at most so many digits, and an f64 has all such exactly.
const MOST_DIGITS: usize = 15;

// A weight by its bits, the high ones first.
fn bits_in(word: &[u8]) -> Result<f64, Why> {
    let mut bytes = [0u8; BITS_BYTES];
    match bytes_in(word, &mut bytes) {
        Ok(_) => Ok(f64_from_bits_with_nan(u64::from_be_bytes(bytes))),
        Err(_) => Err(Why::NoNumber),
    }
}

// A weight in a word.
pub fn weight_in(word: &[u8]) -> Result<f64, Why> {
    match word.len() {
        BITS_DIGITS => bits_in(word),
        0..=MOST_DIGITS => Ok(nearest_usize_to_f64(number_in(word)?)),
        _ => Err(Why::NoNumber),
    }
}
