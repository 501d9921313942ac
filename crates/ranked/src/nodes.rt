// The parts of a node, read from its number.
ghost use Rattle.std.specs.Prelude.{◌<◌};

#[derive(Clone, Copy)]
pub(crate) struct Parts {
    // the duty's state
    pub(crate) duty: u8,
    pub(crate) turn: bool,
    // the set of the owed states
    pub(crate) owed: u32,
    // a digit for each state of the rule: its rank and one more, or 0 for none
    pub(crate) ranks: u64,
    ghost small: { duty < 32 },
}

impl Parts {
    ghost use Rattle.ranked.specs.Reads.{Reads};

    pub(crate) fn read(v: u64) -> Parts
        ensures { Reads v result }
    {
        Parts {
            duty: (v % 32) as u8,
            turn: v / 32 % 2 == 1,
            owed: (v / 64 % 64) as u32,
            ranks: v / 4096,
        }
    }
}
