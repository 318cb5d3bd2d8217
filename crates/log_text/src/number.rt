// Decimal numbers.
ghost use Rattle.std.specs.Prelude.{◌≡◌};
ghost use Rattle.log_text.specs.Decimal.{digits_read, number_read, zero_led};

// The number that a word spells: digits only, at most 4,294,967,295. Each number is written in one way,
// `0` or digits with no zero in front, so that equal logs are equal texts.
#[tactic(auto, unfolding(crate::specs::Decimal::number_read))]
pub fn read_number(s: &[u8]) -> Option<u32>
    ensures { result ≡ number_read s.now }
{
    if s.is_empty() || is_padded(s) {
        return None;
    }
    read_digits(s)
}

// Whether a zero stands in front of other bytes.
#[tactic(auto, unfolding(crate::specs::Decimal::zero_led))]
fn is_padded(s: &[u8]) -> bool
    ensures { result ≡ zero_led s.now }
{
    1 < s.len() && s[0] == b'0'
}

// The number that the digits spell; no bytes spell 0. It leaves off at the first digit that makes the
// number too large, so the value stays small however long the word is.
// Stays: no plainer with `parse`, which takes a `+` in front too; no number here has one.
fn read_digits(s: &[u8]) -> Option<u32>
    ensures { result ≡ digits_read s.now }
{
    let mut value: u64 = 0;
    for b in s {
        if !b.is_ascii_digit() {
            return None;
        }
        value = value * 10 + u64::from(*b - b'0');
        if u64::from(u32::MAX) < value {
            return None;
        }
    }
    Some(value as u32)
}
