//! Numbers and bytes as text.
use std::fmt;

/// A number in decimal digits, or None; one that is too large is the largest there is.
pub(crate) fn number(word: &str) -> Option<u64> {
    // `parse` also takes a sign, so the digits are looked at first; then it fails only for size.
    if word.is_empty() || !word.bytes().all(|b| b.is_ascii_digit()) {
        return None;
    }
    Some(word.parse().unwrap_or(u64::MAX))
}

/// The hexadecimal digits.
const DIGITS: [u8; 16] = *b"0123456789ABCDEF";

/// How many bytes are printed together.
const PART: usize = 32;

/// Bytes in pairs of hexadecimal digits, `-` for none.
#[derive(Clone, Copy)]
pub(crate) struct Hex<'a>(pub(crate) &'a [u8]);

impl fmt::Display for Hex<'_> {
    fn fmt<W: fmt::Write>(&self, f: &mut fmt::Formatter<W>) -> fmt::Result {
        if self.0.is_empty() {
            return f.write_str("-");
        }
        // The digits of some bytes together: a formatted number for each byte takes over twice the time.
        for part in self.0.chunks(PART) {
            let mut digits = [0u8; 2 * PART];
            for (pair, b) in digits.chunks_exact_mut(2).zip(part) {
                pair[0] = DIGITS[usize::from(b >> 4)];
                pair[1] = DIGITS[usize::from(b & 15)];
            }
            // There is room for the digits of each part, and they are ASCII.
            let text = digits
                .get(..2 * part.len())
                .and_then(|d| str::from_utf8(d).ok());
            f.write_str(text.ok_or(fmt::Error)?)?;
        }
        Ok(())
    }
}
