// Text in fixed memory, to which `write!` writes too.
ghost use Rattle.std.specs.Prelude.{◌≡◌, ◌≤◌, take, IfOk, IfErr};
ghost use Rattle.log_text.specs.Hex.{hex_decoded, bytes_to, encoded};
ghost use Rattle.log_text.specs.Written.{Written, WrittenNumber};

use crate::hexadecimal::{HexError, decode_hex, digit_char};
use std::fmt;

// The first `len` of N bytes. A text is bytes, of any values: those that hex spells too. What has no room is left out.
#[derive(Drop)]
pub struct Text<const N: usize> {
    bytes: [u8; N],
    len: usize,
    ghost within: { len ≤ N },
}

impl<const N: usize> Text<N> {
    pub fn new() -> Self
        ensures { result.len ≡ 0 }
    {
        Text {
            bytes: [0; N],
            len: 0,
        }
    }

    // The bytes that the hex spells, all of them.
    pub fn from_hex(hex: &[u8]) -> Result<Text<N>, HexError>
        ensures spelled { IfOk result (λ b. (hex_decoded hex.now N ≡ Ok b.len) × (take b.len b.bytes ≡ bytes_to hex.now b.len)) }
        ensures refused { IfErr result (λ e. hex_decoded hex.now N ≡ Err e) }
    {
        let mut text = Text::new();
        text.set_hex(hex)?;
        Ok(text)
    }

    // Takes the bytes that the hex spells in the place of its own, where they lie: 16 KB are not moved for a few. It is empty where the hex spells none.
    pub fn set_hex(&mut self, hex: &[u8]) -> Result<(), HexError>
        ensures spelled { IfOk result (λ u. (hex_decoded hex.now N ≡ Ok self.new.len)
            × (take self.new.len self.new.bytes ≡ bytes_to hex.now self.new.len)) }
        ensures refused { IfErr result (λ e. (hex_decoded hex.now N ≡ Err e) × (self.new.len ≡ 0)) }
    {
        self.clear();
        self.len = decode_hex(hex, &mut self.bytes)?;
        Ok(())
    }

    // Puts the bytes of s behind the text, as many as there is room for.
    pub fn put(&mut self, s: &[u8])
        ensures { Written self.old.bytes self.old.len s.now self.new.bytes self.new.len }
    {
        let n = s.len().min(N - self.len);
        let all = &mut self.bytes[..];
        all[self.len..self.len + n].copy_from_slice(&s[..n]);
        self.len += n;
    }

    // Puts the bytes of s as hex, as `Hex` prints them.
    pub fn put_hex(&mut self, s: &[u8])
        ensures { Written self.old.bytes self.old.len (encoded s.now) self.new.bytes self.new.len }
    {
        if s.is_empty() {
            self.put(b"-");
            return;
        }
        for b in s {
            self.put(&[digit_char(*b / 16), digit_char(*b % 16)]);
        }
    }

    // Puts n in decimal: what `write!` writes of it, and with no answer to look at.
    pub fn put_number(&mut self, n: u64)
        ensures { WrittenNumber self.old.bytes self.old.len n self.new.bytes self.new.len }
    {
        let mut digits = [0u8; 20];
        let k = io::decimal(n, &mut digits);
        self.put(&digits[..k]);
    }

    pub fn as_bytes(&self) -> &[u8]
        ensures { result.now ≡ take self.now.len self.now.bytes }
    {
        &self.bytes[..self.len]
    }

    pub fn len(&self) -> usize
        ensures { (result ≡ self.now.len) × (result ≤ N) }
    {
        self.as_bytes().len()
    }

    pub fn clear(&mut self)
        ensures { self.new.len ≡ 0 }
    {
        self.len = 0;
    }
}

impl<const N: usize> fmt::Write for Text<N> {
    ghost write_str_gives = { λ s bytes t. Written s.bytes s.len bytes t.bytes t.len };

    // What has no room is left out, and that is no error.
    fn write_str(&mut self, s: &str) -> fmt::Result
        ensures { (result ≡ Ok tt) × Written self.old.bytes self.old.len s.now self.new.bytes self.new.len }
    {
        self.put(s.as_bytes());
        Ok(())
    }
}
