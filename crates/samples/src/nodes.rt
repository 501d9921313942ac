// Nodes of the ranked graph of a duty and a rule, written by their parts, and records of them.
ghost use Rattle.std.specs.Prelude.{◌≡◌};

use records::Record;

// A node of a rule of at most 6 states.
#[derive(Clone, Copy, PartialEq, Eq, Debug)]
pub struct Node {
    // the duty's state
    pub duty: u8,
    // of each state of the rule its rank and one more, or 0 where it has none
    pub ranks: [u8; 6],
    // the rule's states that are owed, as the bits of a number
    pub owed: u8,
    pub turn: bool,
}

// `node!(1: [2 -] owed 0b01 turn)`: the duty is in state 1, the rule's state 0 has rank 2 and is owed, state 1 has no rank, and the
// turn is set. A rule has one state, two or six.
#[macro_export]
macro_rules! node {
    (@rank -) => { 0 };
    (@rank $rank:literal) => { $rank + 1 };
    (@ranks $a:tt) => {
        [$crate::node!(@rank $a), 0, 0, 0, 0, 0]
    };
    (@ranks $a:tt $b:tt) => {
        [$crate::node!(@rank $a), $crate::node!(@rank $b), 0, 0, 0, 0]
    };
    (@ranks $($rank:tt)*) => { [$($crate::node!(@rank $rank)),*] };
    (@parts $duty:literal [$($rank:tt)*] $owed:literal $turn:literal) => {
        $crate::Node {
            duty: $duty,
            ranks: $crate::node!(@ranks $($rank)*),
            owed: $owed,
            turn: $turn,
        }
    };
    ($duty:literal: [$($rank:tt)*]) => { $crate::node!(@parts $duty [$($rank)*] 0 false) };
    ($duty:literal: [$($rank:tt)*] turn) => { $crate::node!(@parts $duty [$($rank)*] 0 true) };
    ($duty:literal: [$($rank:tt)*] owed $owed:literal) => {
        $crate::node!(@parts $duty [$($rank)*] $owed false)
    };
    ($duty:literal: [$($rank:tt)*] owed $owed:literal turn) => {
        $crate::node!(@parts $duty [$($rank)*] $owed true)
    };
}

impl Node {
    ghost use Rattle.samples.specs.Nodes.{number};

    // Its number, as maps have it.
    pub fn number(self) -> u64
        ensures { result ≡ number self }
    {
        let [a, b, c, d, e, f] = self.ranks;
        let upper = d as u64 + 16 * (e as u64 + 16 * f as u64);
        let ranks = a as u64 + 16 * (b as u64 + 16 * (c as u64 + 16 * upper));
        self.duty as u64 + 32 * self.turn as u64 + 64 * self.owed as u64 + 4096 * ranks
    }

    // A record of it with this measure, and with letter 0.
    pub fn measured(self, measure: u32) -> Record
        ensures { (result.node ≡ number self) × (result.letter ≡ 0) × (result.measure ≡ measure) }
    {
        Record {
            node: self.number(),
            letter: 0,
            measure,
        }
    }
}

// Records of these nodes, with letter 0 and measure 0.
pub fn records<const N: usize>(nodes: [Node; N]) -> [Record; N] {
    let mut records = [Record::default(); N];
    for (record, node) in records.iter_mut().zip(&nodes) {
        *record = node.measured(0);
    }
    records
}

// A record of a table that has been in use.
pub const USED: Record = Record {
    node: 7,
    letter: 200,
    measure: 77,
};
