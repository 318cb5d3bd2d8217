// What stays of a use when points leave: the m points from f on.
ghost use Rattle.std.specs.Prelude.{◌≡◌, false, [], ◌∷◌, ◌+◌, ◌≤◌, option_to_list};
ghost use Rattle.spec_plain.specs.Limits.{side};
ghost use Rattle.spec_plain.specs.Plain.{goes, new_number, staying};

use spec_plain::Use;

// Whether point x is one of those that leave. Joined by `&`, with no branch: every use of a board may be asked.
#[tactic(auto, unfolding(spec_plain::specs::Plain::goes))]
pub fn goes(f: u32, m: u32, x: u32) -> bool
    requires { f + m ≤ side }
    ensures { result ≡ goes f m x }
{
    (f <= x) & (x < f + m)
}

// The new number of a point that stays.
#[tactic(auto, unfolding(spec_plain::specs::Plain::new_number, spec_plain::specs::Plain::goes))]
fn over(f: u32, m: u32, x: u32) -> u32
    requires { goes f m x ≡ false }
    ensures { result ≡ new_number f m x }
{
    if x < f {
        return x;
    }
    x - m
}

// What stays of one use: itself with its point renumbered, or none.
#[tactic(auto, unfolding(spec_plain::specs::Plain::staying))]
pub fn staying(u: Use, f: u32, m: u32) -> Option<Use>
    requires { f + m ≤ side }
    ensures { option_to_list result ≡ staying f m (u ∷ []) }
{
    if goes(f, m, u.point) {
        return None;
    }
    Some(Use {
        point: over(f, m, u.point),
        offset: u.offset,
        length: u.length,
    })
}
