// Sets of small numbers as the bits of a word, bit 0 the lowest.
ghost use Rattle.std.specs.Prelude.{◌≡◌, ℕ, ◌<◌, ◌≤◌, ◌||◌, ◌==◌};
ghost use Rattle.numbers.specs.Bits.{bit};
ghost use Rattle.numbers.specs.Least.{Least};

// Is q a member of the set?
pub fn contains(set: u32, q: u64) -> bool
    ensures { result ≡ bit set q }
{
    q < 32 && (set >> q) % 2 == 1
}

// The set with q in it. There is no room for numbers from 32 on.
pub fn with(set: u32, q: u64) -> u32
    ensures small { q < 32 → (i : ℕ) → bit result i ≡ (q == i || bit set i) }
    ensures large { 32 ≤ q → result ≡ set }
{
    if q < 32 { set | 1u32 << q } else { set }
}

// The least member that is not below `from`.
pub fn least_member(set: u32, from: u64) -> Option<u64>
    ensures { Least (bit set) from result }
{
    if from >= 32 {
        return None;
    }
    let rest = set >> from;
    if rest == 0 {
        return None;
    }
    Some(from + rest.trailing_zeros() as u64)
}
