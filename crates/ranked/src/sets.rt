// What passes a test, as a set.
ghost use Rattle.std.specs.Prelude.{ℕ, ◌<◌};
ghost use Rattle.numbers.specs.Bits.{bit};

use numbers::with;

// The set of the numbers below 32 that pass.
pub(crate) fn members<F: Fn(u8) -> bool>(test: F) -> u32
    requires { F.IsAlwaysCallable test }
    ensures { (q : ℕ) → q < 32 → F.post test q (bit result q) }
{
    let mut set = 0u32;
    for q in 0..32u8 {
        if test(q) {
            set = with(set, q as u64);
        }
    }
    set
}
