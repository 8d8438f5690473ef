// Text of any kind. No design is text: its first byte is one that nobody can see.

// Text has such bytes: what can be seen, spaces, line breaks, and those of letters beyond ASCII.
fn is_readable(b: u8) -> bool {
    matches!(b, b'\t' | b'\n' | b'\r' | b' '..=b'~' | 128..=255)
}

// Bytes that are text, and begin with a byte of ASCII.
pub fn is_text(bytes: &[u8]) -> bool {
    bytes.first().is_some_and(|b| b.is_ascii()) && bytes.iter().all(|b| is_readable(*b))
}
