// Bytes as hex: two lower-case digits for each byte, and `-` for no bytes.
ghost use Rattle.std.specs.Prelude.{◌≡◌, ◌*◌, ◌≤◌, ◌<◌, length, Some};
ghost use Rattle.io.specs.Digits.{hex_digit_ascii};
ghost use Rattle.log_text.specs.Hex.{HoldsBytes, digit_of, encoded, hex_decoded, pairs_decoded};

use std::fmt;

// Why a word is no bytes as hex.
#[derive(Clone, Copy, Debug, PartialEq, Eq)]
pub enum HexError {
    Empty,
    Odd,
    BadDigit,
    NoRoom,
}

// Puts the bytes that the hex spells at the start of out, and answers how many they are.
#[tactic(auto, unfolding(crate::specs::Hex::hex_decoded, crate::specs::Hex::is_dash))]
pub fn decode_hex(s: &[u8], out: &mut [u8]) -> Result<usize, HexError>
    ensures value { result ≡ hex_decoded s.now (length out.old) }
    ensures holds_bytes { HoldsBytes s.now out.new result }
{
    match s {
        b"-" => Ok(0),
        b"" => Err(HexError::Empty),
        _ if s.len() % 2 == 1 => Err(HexError::Odd),
        _ if out.len() < s.len() / 2 => Err(HexError::NoRoom),
        _ => decode_pairs(s, out, s.len() / 2),
    }
}

// The first n bytes, from two digits each.
// Stays: with `iter_mut` and `zip` over `chunks_exact(2)` the proof doesn't close. What stands in `out` after the loop stays open.
fn decode_pairs(s: &[u8], out: &mut [u8], n: usize) -> Result<usize, HexError>
    requires { (2 * n ≤ length s.now) × (n ≤ length out.old) }
    ensures value { result ≡ pairs_decoded s.now n }
    ensures holds_bytes { HoldsBytes s.now out.new result }
{
    for i in 0..n {
        let high = digit_value(s[2 * i]).ok_or(HexError::BadDigit)?;
        let low = digit_value(s[2 * i + 1]).ok_or(HexError::BadDigit)?;
        out[i] = high * 16 + low;
    }
    Ok(n)
}

// The value of a hex digit.
// Stays: no plainer with `to_digit(16)`, which takes upper-case digits too; no hex here has them.
#[tactic(auto, unfolding(crate::specs::Hex::digit_value))]
fn digit_value(b: u8) -> Option<u8>
    ensures { result ≡ digit_of b }
{
    match b {
        b'0'..=b'9' => Some(b - b'0'),
        b'a'..=b'f' => Some(b - b'a' + 10),
        _ => None,
    }
}

// The hex digit of a value.
pub fn digit_char(value: u8) -> u8
    requires { value < 16 }
    ensures { result ≡ hex_digit_ascii value }
{
    if value < 10 {
        b'0' + value
    } else {
        b'a' + value - 10
    }
}

// Bytes that are printed as hex.
#[derive(Clone, Copy)]
pub struct Hex<'a>(pub &'a [u8]);

impl<'a> fmt::Display for Hex<'a> {
    ghost output = { λ h. Some (encoded h.0.now) };

    fn fmt<W: fmt::Write>(&self, f: &mut fmt::Formatter<W>) -> fmt::Result {
        if self.0.is_empty() {
            return write!(f, "-");
        }
        for &b in self.0 {
            write!(f, "{b:02x}")?;
        }
        Ok(())
    }
}
