// Sets of facts in a u32: bit k stands for fact k (document 01: "one bit per fact, bit 0 for fact 0").
// It may use no other crate.
#![tactic(auto)]

ghost use Rattle.std.specs.Prelude.{◌≡◌};
ghost use Rattle.base_masks.specs.Mask.{share, join, strike, lowest};

// Whether some fact is in both.
pub fn overlap(a: u32, b: u32) -> bool
    ensures { result ≡ share a b }
{
    a & b != 0
}

// The facts of either.
pub fn union(a: u32, b: u32) -> u32
    ensures { result ≡ join a b }
{
    a | b
}

// The facts of a that are not in b.
pub fn difference(a: u32, b: u32) -> u32
    ensures { result ≡ strike a b }
{
    a ^ (a & b)
}

// The lowest fact, and 32 where there is none.
// Stays: the definition `lowest` gives 32 there, as the processor does; its one caller has tested that there is a fact.
pub fn first(a: u32) -> u32
    ensures { result ≡ lowest a }
{
    a.trailing_zeros()
}
