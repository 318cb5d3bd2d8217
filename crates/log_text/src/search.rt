// Places in a slice, and how often a byte stands there.
ghost use Rattle.std.specs.Prelude.{◌≡◌, get_or, length, eqb};
ghost use Rattle.log_text.specs.Counted.{count_below};
ghost use Rattle.log_text.specs.Found.{first_of};

// The place of the first byte x, if there is one.
pub fn find(s: &[u8], x: u8) -> Option<usize>
    ensures { result ≡ first_of x s.now }
{
    s.iter().position(|b| *b == x)
}

// How many bytes of s are x.
pub fn count(s: &[u8], x: u8) -> usize
    ensures { result ≡ count_below (λ k. eqb (get_or s.now k 0) x) (length s.now) }
{
    let mut n = 0;
    for b in s {
        n += usize::from(*b == x);
    }
    n
}
