// The arguments of the program, as bytes.
use log_text::Text;
use std::env::{Env, FillError};

// How many there are, the program's own name among them. A proved loop has to end, and no program has `usize::MAX` of them.
pub fn argument_count<R: Env>(rt: &R) -> usize {
    let mut first = [0u8; 1];
    for k in 0..usize::MAX {
        if let Err(FillError::NotPresent) = rt.arg(k, &mut first) {
            return k;
        }
    }
    usize::MAX
}

// Argument k, or nothing where it is missing or longer than the N bytes that the caller has room for.
pub fn argument<R: Env, const N: usize>(rt: &R, k: usize) -> Text<N> {
    let mut bytes = [0u8; N];
    let mut text = Text::new();
    if let Ok(n) = rt.arg(k, &mut bytes) {
        text.put(&bytes[..n]);
    }
    text
}
