// The plant file, of any bytes: refusals 1 to 4, and the part that holds an action's allocations. It may use base_words, base_masks and base_rulings.
#![tactic(auto)]

mod file;

ghost use Rattle.std.specs.Prelude.{◌≡◌, false, cond, not, ◌&&◌, ◌||◌, ◌+◌, ◌-◌, ◌*◌, ◌/◌, ◌≤◌, ◌<◌, ◌^◌, length, eqb, ltb, Ok, Err};
ghost use Rattle.base_masks.specs.Mask.{share};
ghost use Rattle.read_plant.specs.Plant.{is_mark, trailer_of, bad_layout, bad_head, bad_record, bad_duration, out_of_range};
ghost use Rattle.read_plant.specs.Plant.{some_bad_allocation, bad_action, record_ruling, plant_ruling, allocations_of, allocation_count};
ghost use Rattle.read_plant.specs.Plant.{record_end, needs_true, needs_false, makes_true, makes_false};
ghost use Rattle.base_words.specs.Word.{word};
ghost use Rattle.base_rulings.specs.Answer.{cause};
ghost use Rattle.base_rulings.specs.Order.{first_refusal, refusal_of};

use base_masks::{overlap, union};
use base_rulings::{Cause, Ruling};
use base_words::u32_at;
pub use file::Plant;

// The last four bytes of a plant file: hex 50 4C 4E 54.
pub const MARK: [u8; 4] = *b"PLNT";

// The bytes of a trailer: the index's start, the action count and the mark.
const TRAILER_SIZE: usize = 12;

// The longest duration, offset and length there may be, in milliseconds.
const MOST: u32 = 1000000;

// What a plant file ends with, the mark aside: where its index starts, and how many actions it has.
#[derive(Clone, Copy, Debug, PartialEq, Eq)]
pub struct Trailer {
    pub index: usize,
    pub count: u32,
}

// Whether the four bytes at `at` are the mark.
fn is_marked(s: &[u8], at: usize) -> bool
    requires { at + 4 ≤ length s.now }
    ensures { result ≡ is_mark s.now at }
{
    [s[at], s[at + 1], s[at + 2], s[at + 3]] == MARK
}

// The trailer of a file that is long enough for one.
pub fn read_trailer(s: &[u8]) -> Trailer
    requires { 12 ≤ length s.now }
    ensures { (result ≡ trailer_of s.now) × (result.index < 2 ^ 32) }
{
    Trailer {
        index: u32_at(s, s.len() - TRAILER_SIZE) as usize,
        count: u32_at(s, s.len() - 8),
    }
}

// Refusal 2. The sum is made in 64 bits, where it cannot wrap.
fn is_bad_layout(t: Trailer, len: usize) -> bool
    requires { t.index < 2 ^ 32 }
    ensures { result ≡ bad_layout t len }
{
    t.count < 1 || 128 < t.count || t.index + 4 * (t.count as usize) + TRAILER_SIZE != len
}

// Whether the allocation count is above 4 or one of the three spare bytes after it is not zero. The four are read as one word, low byte first.
// Stays: a struct of bytes and place is no plainer: each of the five that take them asks for just the bytes that it reads (16, 28, or 28 + 12 n).
fn is_bad_head(s: &[u8], at: usize) -> bool
    requires { at + 28 ≤ length s.now }
    ensures { result ≡ bad_head s.now at }
{
    4 < u32_at(s, at + 24)
}

// The allocation count of a record whose spare bytes are zero: the same word.
fn count_at(s: &[u8], at: usize) -> usize
    requires { (at + 28 ≤ length s.now) × (bad_head s.now at ≡ false) }
    ensures { (result ≡ allocation_count s.now at) × (result ≤ 4) }
{
    u32_at(s, at + 24) as usize
}

// "1 ≤ shortest ≤ longest ≤ 1,000,000" does not hold. One less than 0 wraps to the largest number of 32 bits: so one test finds a shortest that is 0
// or above the longest.
pub fn is_bad_duration(short: u32, long: u32) -> bool
    ensures { result ≡ bad_duration short long }
{
    let past = MOST < long;
    past || long <= short.wrapping_sub(1)
}

// Whether a length is in range, 1 to 1,000,000: one test too.
fn is_good_length(len: u32) -> bool
    ensures { not result ≡ ltb len 1 || ltb 1000000 len }
{
    len.wrapping_sub(1) < MOST
}

// Whether one of an allocation's numbers is out of range.
pub fn is_out_of_range(resource: u32, offset: u32, len: u32) -> bool
    ensures { result ≡ out_of_range resource offset len }
{
    15 < resource || MOST < offset || !is_good_length(len)
}

// Whether one of the n allocations of the record at `at` is out of range. A resource is above 15 where it has a bit above the lowest four, so that
// the bits of all are collected and looked at once.
fn is_some_bad(s: &[u8], at: usize, n: usize) -> bool
    requires { at + 28 + 12 * n ≤ length s.now }
    ensures { result ≡ some_bad_allocation s.now at n }
{
    let mut resources = 0;
    for k in 0..n {
        let start = at + 28 + 12 * k;
        resources = union(resources, u32_at(s, start));
        if !is_good_length(u32_at(s, start + 8)) || MOST < u32_at(s, start + 4) {
            return true;
        }
    }
    15 < resources
}

// Whether the record at `at` has a fact twice in its needs or in its makes. Both are looked at and joined by `|`: one branch in place of two.
fn has_fact_twice(s: &[u8], at: usize) -> bool
    requires { at + 16 ≤ length s.now }
    ensures { result ≡ share (needs_true s.now at) (needs_false s.now at)
        || share (makes_true s.now at) (makes_false s.now at) }
{
    overlap(u32_at(s, at), u32_at(s, at + 4)) | overlap(u32_at(s, at + 8), u32_at(s, at + 12))
}

// Refusal 4 of the action whose record starts at `at` and has n allocations.
fn is_bad_action(s: &[u8], at: usize, n: usize) -> bool
    requires { (at + 28 + 12 * n ≤ length s.now) × (n ≡ allocation_count s.now at) }
    ensures { result ≡ bad_action s.now at }
{
    has_fact_twice(s, at)
        || is_bad_duration(u32_at(s, at + 16), u32_at(s, at + 20))
        || is_some_bad(s, at, n)
}

// Why a record fails that is bad: 4; or 3, which comes before 4, where it is the last and does not end where it has to.
fn cause_of_bad(t: Trailer, action: u32, ends: bool) -> Cause
    requires { action < t.count }
    ensures { result ≡ cond (not ends && eqb (action + 1) t.count) (cause 3 action) (cause 4 action) }
{
    let last = action + 1 == t.count;
    if !ends && last {
        return Cause::Action(3, action);
    }
    Cause::Action(4, action)
}

// Why a record fails that is good but does not end where it has to: the last one, by 3. Where another does not, the index entry of the action after
// it is wrong, which is 3 of that action.
fn cause_of_end(t: Trailer, action: u32) -> Cause
    requires { action < t.count }
    ensures { result ≡ cond (eqb (action + 1) t.count) (cause 3 action) (cause 3 (action + 1)) }
{
    if action + 1 == t.count {
        return Cause::Action(3, action);
    }
    Cause::Action(3, action + 1)
}

// Reads the record of an action, which starts at `at`, as its index entry says, and has to end at `next`: 3, then 4, or that it does.
fn read_record(s: &[u8], t: Trailer, action: u32, at: usize, next: usize) -> Result<usize, Cause>
    requires { (t.index + 4 * t.count + 12 ≤ length s.now) × (action < t.count) × (at + 28 ≤ t.index)
        × (word s.now (t.index + 4 * action) ≡ at) × (action + 1 ≡ t.count → next ≡ t.index) }
    ensures { result ≡ cond (bad_record s.now t action at) (Err (cause 3 action))
        (cond (bad_action s.now at) (Err (cause 4 action))
        (cond (eqb (record_end s.now at) next) (Ok next) (Err (cause 3 (action + 1))))) }
{
    if is_bad_head(s, at) {
        return Err(Cause::Action(3, action));
    }
    let n = count_at(s, at);
    let end = at + 28 + 12 * n;
    if t.index < end {
        return Err(Cause::Action(3, action));
    }
    let ends = end == next;
    if is_bad_action(s, at, n) {
        return Err(cause_of_bad(t, action, ends));
    }
    if !ends {
        return Err(cause_of_end(t, action));
    }
    Ok(next)
}

// The action whose index entry stands at `entry`; behind the last entry, how many actions there are.
fn action_of(t: Trailer, entry: usize) -> u32
    requires { (t.index ≤ entry) × (entry ≤ t.index + 4 * t.count) }
    ensures { result ≡ (entry - t.index) / 4 }
{
    ((entry - t.index) / 4) as u32
}

// Reads the records one after the other. The first that fails ends the reading. Where the next record has to start, the index says; behind its
// last entry the trailer says where the index starts, and there the last record has to end. The reading goes on from what was read there, and not
// from the sum that it was compared with: so no record has to wait for the one before it. An action's number is taken from the place of its entry,
// so that nothing else is counted.
fn read_records(s: &[u8], t: Trailer) -> Result<(), Cause>
    requires { (t ≡ trailer_of s.now) × (t.index + 4 * t.count + 12 ≡ length s.now) × (1 ≤ t.count) }
    ensures { refusal_of result ≡ first_refusal (record_ruling s.now) t.count }
{
    let mut at = u32_at(s, t.index) as usize;
    if at != 0 {
        return Err(Cause::Action(3, 0));
    }
    let mut entry = t.index;
    // Stays: tried as a `for` over the actions; that misses the speed of this form (470, 595, 972 ns beside 430, 555, 890 with 128 actions).
    while at + 28 <= t.index {
        let action = action_of(t, entry);
        entry += 4;
        let next = u32_at(s, entry) as usize;
        let answer = read_record(s, t, action, at, next);
        // Stays: document 01 names the form: `let .. else` takes each record's answer apart and leaves with its cause.
        let Ok(end) = answer else {
            return answer.map(|_| ());
        };
        at = end;
    }
    let action = action_of(t, entry);
    if action < t.count {
        return Err(Cause::Action(3, action));
    }
    Ok(())
}

// The first of refusals 1 to 4 of a plant file.
pub fn check_plant(s: &[u8]) -> Ruling
    ensures { result ≡ plant_ruling s.now }
{
    Ruling::from(Plant::read(s))
}

// The part of a good plant file that holds the action's allocations, 12 bytes each; empty for a bad file or an action that it lacks.
pub fn allocations(s: &[u8], action: u32) -> &[u8]
    ensures { result.now ≡ allocations_of s.now action }
{
    let Ok(plant) = Plant::read(s) else {
        return &s[..0];
    };
    if plant.trailer.count <= action {
        return &s[..0];
    }
    let start = plant.start_of(action);
    let from = start + 28;
    let to = from + 12 * (s[start + 24] as usize);
    &s[from..to]
}
