// What is shown in hexadecimal.
use std::fmt::Write;
use std::{fmt, str};

// So many bytes are turned into digits at once: a format for each byte takes seven times as long.
const PART: usize = 32;

const DIGITS: [u8; 16] = *b"0123456789abcdef";

// Bytes, two digits each; `-` for none.
#[derive(Clone, Copy)]
pub struct Hex<'a>(pub &'a [u8]);

// Writes the digits of a few bytes.
fn write_part<W: Write>(f: &mut fmt::Formatter<W>, part: &[u8]) -> fmt::Result {
    let mut digits = [0u8; 2 * PART];
    for (pair, b) in digits.chunks_exact_mut(2).zip(part) {
        pair[0] = DIGITS[usize::from(b >> 4)];
        pair[1] = DIGITS[usize::from(b & 15)];
    }
    let digits = &digits[..2 * part.len().min(PART)];
    // digits are text, so this fails where writing does
    f.write_str(str::from_utf8(digits).map_err(|_| fmt::Error)?)
}

impl<'a> fmt::Display for Hex<'a> {
    fn fmt<W: Write>(&self, f: &mut fmt::Formatter<W>) -> fmt::Result {
        if self.0.is_empty() {
            return write!(f, "-");
        }
        for part in self.0.chunks(PART) {
            write_part(f, part)?;
        }
        Ok(())
    }
}

// The bits of an f64, in 16 digits.
#[derive(Clone, Copy)]
pub struct Bits(pub f64);

impl fmt::Display for Bits {
    fn fmt<W: Write>(&self, f: &mut fmt::Formatter<W>) -> fmt::Result {
        write!(f, "{:016x}", bits_of(self.0))
    }
}

// The bits of a number; what is no number has none that could be told, and is never put.
fn bits_of(x: f64) -> u64 {
    if x == x {
        return f64::to_bits(x);
    }
    0
}

// The hash of bytes, FNV-1a with 64 bits, in 16 digits.
#[derive(Clone, Copy)]
pub struct Hash<'a>(pub &'a [u8]);

impl<'a> fmt::Display for Hash<'a> {
    fn fmt<W: Write>(&self, f: &mut fmt::Formatter<W>) -> fmt::Result {
        let mut hash: u64 = 0xcbf29ce484222325;
        for b in self.0 {
            hash = hashed(hash, *b);
        }
        write!(f, "{hash:016x}")
    }
}

// One byte more in the hash: exclusive or, then times 100000001b3, which is 2^40 + 2^8 + 2^7 + 2^5 + 2^4 + 2 + 1.
fn hashed(hash: u64, b: u8) -> u64 {
    (hash ^ b as u64).wrapping_mul(0x100000001b3)
}
