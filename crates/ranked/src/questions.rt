// The questions of a map, without a word. A node's successors by a letter are told by a choice for each of their parts, so the
// least of them is found without going through the others.
use crate::maps::RankedMap;
use crate::nodes::Parts;

impl RankedMap {
    ghost use Rattle.std.specs.Prelude.{◌≡◌};
    ghost use Rattle.numbers.specs.Least.{Least};
    ghost use Rattle.rank.specs.Ranked.{is_number, ranked_graph};
    ghost use Rattle.ranked.specs.Maps.{duty_of, rule_of};

    // Is v a node?
    pub(crate) fn has_node(&self, v: u64) -> bool
        ensures { result ≡ is_number (duty_of self.now) (rule_of self.now) v }
    {
        let node = Parts::read(v);
        node.duty < self.duty.states && self.around(node).has(v)
    }

    // Is v a start?
    pub(crate) fn has_start(&self, v: u64) -> bool
        ensures { result ≡ (ranked_graph (duty_of self.now) (rule_of self.now)).start v }
    {
        self.starts().has(v)
    }

    // Is v marked?
    pub(crate) fn has_mark(&self, v: u64) -> bool
        ensures { result ≡ (ranked_graph (duty_of self.now) (rule_of self.now)).marked v }
    {
        if !self.has_node(v) {
            return false;
        }
        let node = Parts::read(v);
        node.turn && node.owed == 0
    }

    // The least start that is not below `from`.
    pub(crate) fn first_start(&self, from: u64) -> Option<u64>
        ensures { Least (ranked_graph (duty_of self.now) (rule_of self.now)).start from result }
    {
        self.starts().least(from)
    }

    // The least successor of v by the letter that is not below `from`.
    pub(crate) fn first_next(&self, v: u64, letter: u8, from: u64) -> Option<u64>
        ensures { Least ((ranked_graph (duty_of self.now) (rule_of self.now)).edge v letter) from result }
    {
        if !self.has_node(v) {
            return None;
        }
        if letter >= self.duty.letters {
            return None;
        }
        self.successors(Parts::read(v), letter).least(from)
    }
}
