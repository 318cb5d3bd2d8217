// Numbers, records, index and trailer put into a buffer that is known to be long enough.
ghost use Rattle.std.specs.Prelude.{◌≡◌, [], ◌∷◌, ◌++◌, map, ◌+◌, ◌*◌, ◌≤◌, ◌<◌, ◌^◌, length, get_or};
ghost use Rattle.std.proofs.lemmas.List.Edits.{sets};
ghost use Rattle.base_words.specs.Word.{u32, u32s};
ghost use Rattle.base_lists.specs.Loops.{build};
ghost use Rattle.write_plant.specs.Written.{record_of, file_of, mark};
ghost use Rattle.write_plant.specs.Lent.{action_from, action_in};
ghost use Rattle.write_plant.specs.Parts.{lent_records, FewEach};

use crate::ACTION_WORDS;
use read_plant::MARK;

// The four bytes of a number, low byte first.
fn put_word(s: &mut [u8], at: usize, v: u32)
    requires { at + 4 ≤ length s.old }
    ensures { s.new ≡ sets s.old at (u32 v) }
{
    s[at..at + 4].copy_from_slice(&v.to_le_bytes());
}

// Numbers as bytes from `at` on.
fn put_words(s: &mut [u8], at: usize, ns: &[u32])
    requires { at + 4 * length ns.now ≤ length s.old }
    ensures { s.new ≡ sets s.old at (u32s ns.now) }
{
    for (k, n) in ns.iter().enumerate() {
        put_word(s, at + 4 * k, *n);
    }
}

// The byte n, and three zero bytes.
fn put_head(s: &mut [u8], at: usize, n: u8)
    requires { at + 4 ≤ length s.old }
    ensures { s.new ≡ sets s.old at (n ∷ 0 ∷ 0 ∷ 0 ∷ []) }
{
    // Stays: with `copy_from_slice` the four bytes are put together in memory first, and a file of 128 actions takes a sixth longer.
    s[at] = n;
    s[at + 1] = 0;
    s[at + 2] = 0;
    s[at + 3] = 0;
}

fn put_mark(s: &mut [u8], at: usize)
    requires { at + 4 ≤ length s.old }
    ensures { s.new ≡ sets s.old at mark }
{
    s[at..at + 4].copy_from_slice(&MARK);
}

// The record of the action whose words begin at `from`, with n allocations.
fn put_record(s: &mut [u8], at: usize, w: &[u32], from: usize, n: usize)
    requires { (at + 28 + 12 * n ≤ length s.old) × (from + 19 ≤ length w.now) × (n ≡ get_or w.now (from + 6) 0) × (n ≤ 4) }
    ensures { s.new ≡ sets s.old at (record_of (action_from w.now from)) }
{
    put_words(s, at, &w[from..from + 6]);
    put_head(s, at + 24, n as u8);
    put_words(s, at + 28, &w[from + 7..from + 7 + 3 * n]);
}

// The records one after the other, from byte 0, and the index of their starts.
fn put_records(s: &mut [u8], index: usize, w: &[u32], count: usize)
    requires { (19 * count ≤ length w.now) × FewEach w.now count × (count ≤ 128) × (length (lent_records w.now count) ≤ index)
        × (index + 4 * count ≤ length s.old) }
    ensures { s.new ≡
        sets (sets s.old 0 (lent_records w.now count)) index
        (u32s (build (λ a. length (lent_records w.now a)) count)) }
{
    let mut at = 0;
    for action in 0..count {
        let from = ACTION_WORDS * action;
        let n = w[from + 6] as usize;
        put_record(s, at, w, from, n);
        put_word(s, index + 4 * action, at as u32);
        at += 28 + 12 * n;
    }
}

// The trailer: index start, action count, mark.
fn put_trailer(s: &mut [u8], at: usize, index: usize, count: usize)
    requires { (at + 12 ≤ length s.old) × (index < 2 ^ 32) × (count < 2 ^ 32) }
    ensures { s.new ≡ sets s.old at (u32s (index ∷ count ∷ []) ++ mark) }
{
    put_word(s, at, index as u32);
    put_word(s, at + 4, count as u32);
    put_mark(s, at + 8);
}

// The file of the first actions of w.
pub fn put_file(s: &mut [u8], w: &[u32], count: usize, index: usize)
    requires { (19 * count ≤ length w.now) × FewEach w.now count × (count ≤ 128) × (index ≡ length (lent_records w.now count))
        × (index + 4 * count + 12 ≤ length s.old) }
    ensures { s.new ≡ sets s.old 0 (file_of (map record_of (build (action_in w.now) count))) }
{
    put_records(s, index, w, count);
    put_trailer(s, index + 4 * count, index, count);
}
