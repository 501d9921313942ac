// Ranks as one number, by digits of four bits: one for each state of the rule, the first the lowest.
ghost use Rattle.std.specs.Prelude.{◌≡◌, ◌+◌, ◌*◌, ◌^◌, ◌<◌, ◌≤◌};
ghost use Rattle.rank.specs.Layout.{flag};
ghost use Rattle.ranked.specs.Digits.{digit};

// Bit q, if it is set.
pub(crate) fn flag_at(set: bool, q: u8) -> u64
    requires { q < 6 }
    ensures value { result ≡ flag set * 2 ^ q }
    ensures small { result ≤ 32 }
{
    if set { 1 << q } else { 0 }
}

// What four bits of the ranks hold.
pub(crate) fn digit(ranks: u64, q: u8) -> u64
    requires { q < 6 }
    ensures { result ≡ digit ranks q }
{
    (ranks >> (4 * q)) % 16
}

// The ranks of q states, and a digit above them.
pub(crate) fn joined(digit: u64, q: u8, ranks: u64) -> u64
    requires { (q < 6) × (digit < 16) × (ranks < 2 ^ (4 * q)) }
    ensures { result ≡ digit * 2 ^ (4 * q) + ranks }
{
    (digit << (4 * q)) + ranks
}
