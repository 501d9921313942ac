// The choices for the parts of starts, of a node itself, and of its successors.
use crate::choices::Choices;
use crate::digits::digit;
use crate::maps::RankedMap;
use crate::nodes::Parts;
use numbers::contains;

impl RankedMap {
    ghost use Rattle.std.specs.Prelude.{◌≡◌, ℕ, ◌<◌, ◌≤◌, ◌&&◌, ◌||◌, true, nat_lt};
    ghost use Rattle.numbers.specs.Bits.{bit};
    ghost use Rattle.rank.specs.Layout.{parts, rank_held};
    ghost use Rattle.rank.specs.Ranked.{is_number};
    ghost use Rattle.rank.specs.Rules.{is_empty, follows, may_have, is_first_rank, is_next_rank, next_turn};
    ghost use Rattle.ranked.specs.Digits.{digit};
    ghost use Rattle.ranked.specs.Following.{Lowest};
    ghost use Rattle.ranked.specs.Maps.{duty_of, rule_of};
    ghost use Rattle.ranked.specs.Reads.{Reads};
    ghost use Rattle.ranked.specs.Offered.{is_within, StartsOffered, NodeOffered, NextOffered};

    // The digits that state q may have at a start of the graph: that of the greatest rank where q is a start, else that of none.
    fn first_digits(&self, q: u8) -> u16
        ensures { (d : ℕ) → d < 16 → bit result d ≡ (may_have (rule_of self.now) q (rank_held d) && is_first_rank (rule_of self.now) q (rank_held d)) }
    {
        if contains(self.rule.starts, q as u64) {
            1 << (2 * self.rule.states + 1)
        } else {
            1
        }
    }

    // The digits that state q may have at any node.
    fn node_digits(&self, q: u8) -> u16
        ensures { (d : ℕ) → d < 16 → bit result d ≡ (may_have (rule_of self.now) q (rank_held d) && is_within (rule_of self.now) q (rank_held d)) }
    {
        if q < self.rule.states {
            1 | digits_upto(
                2 * self.rule.states + 1,
                contains(self.rule.marks, q as u64),
            )
        } else {
            1
        }
    }

    // Does state p have a rank, and step to q?
    fn leads(&self, ranks: u64, letter: u8, p: u8, q: u8) -> bool
        requires { (p < 6) × (letter < self.now.rule.letters) }
        ensures { result ≡ (nat_lt 0 (digit ranks p) && (rule_of self.now).step p letter q) }
    {
        digit(ranks, p) > 0 && contains(self.rule.steps(p, letter), q as u64)
    }

    // The least digit of the ranked states that step to q, or 0 where there is none.
    fn lowest(&self, ranks: u64, letter: u8, q: u8) -> u8
        requires { letter < self.now.rule.letters }
        ensures told { Lowest (rule_of self.now) ranks letter q result }
        ensures small { result < 16 }
    {
        let mut least = 0u8;
        for p in 0..6u8 {
            if self.leads(ranks, letter, p, q) {
                least = lower(least, digit(ranks, p) as u8);
            }
        }
        least
    }

    // The digits that state q may have after a step by the letter.
    fn next_digits(&self, node: Parts, letter: u8, q: u8) -> u16
        requires letter { letter < self.now.rule.letters }
        ensures { (v : ℕ) → Reads v node → is_number (duty_of self.now) (rule_of self.now) v ≡ true → (d : ℕ) → d < 16 → bit result d ≡ (may_have (rule_of self.now) q (rank_held d) && is_next_rank (rule_of self.now) (parts v).rank letter q (rank_held d)) }
    {
        // none leads beyond the states of the rule
        if q >= self.rule.states {
            return 1;
        }
        digits_upto(
            self.lowest(node.ranks, letter, q),
            contains(self.rule.marks, q as u64),
        )
    }

    // The states that follow a member of the set.
    fn followers(&self, set: u32, letter: u8) -> u32
        requires { letter < self.now.rule.letters }
        ensures { (q : ℕ) → bit result q ≡ any_below 6 (λ p. bit set p && (rule_of self.now).step p letter q) }
    {
        let mut followers = 0u32;
        for p in 0..6u8 {
            if contains(set, p as u64) {
                followers |= self.rule.steps(p, letter);
            }
        }
        followers
    }

    // The states that are owed after a step if their rank is even.
    fn owing(&self, node: Parts, letter: u8) -> u32
        requires { letter < self.now.rule.letters }
        ensures { (v : ℕ) → Reads v node → is_number (duty_of self.now) (rule_of self.now) v ≡ true → (q : ℕ) → q < (rule_of self.now).states → bit result q ≡ (is_empty (rule_of self.now) (parts v).owed || follows (rule_of self.now) (parts v).owed letter q) }
    {
        if node.owed == 0 {
            // all states of the largest rule
            63
        } else {
            self.followers(node.owed, letter)
        }
    }

    // The turn after a step.
    fn next_turn(&self, node: Parts) -> bool
        ensures { (v : ℕ) → Reads v node → is_number (duty_of self.now) (rule_of self.now) v ≡ true → result ≡ next_turn (duty_of self.now) (rule_of self.now) (parts v) }
    {
        if node.turn {
            node.owed != 0
        } else {
            contains(self.duty.marks, node.duty as u64)
        }
    }

    // The starts.
    pub(crate) fn starts(&self) -> Choices
        ensures { StartsOffered (duty_of self.now) (rule_of self.now) result }
    {
        Choices {
            digits: each_state(|q| self.first_digits(q)),
            owing: 0,
            turn: false,
            duty: self.duty.starts,
        }
    }

    // The node itself, if it is one.
    pub(crate) fn around(&self, node: Parts) -> Choices
        ensures { (v : ℕ) → Reads v node → NodeOffered (rule_of self.now) (parts v) result }
    {
        Choices {
            digits: each_state(|q| self.node_digits(q)),
            owing: node.owed,
            turn: node.turn,
            duty: 1 << node.duty,
        }
    }

    // The successors of a node.
    pub(crate) fn successors(&self, node: Parts, letter: u8) -> Choices
        requires { letter < self.now.duty.letters }
        ensures { (v : ℕ) → Reads v node → is_number (duty_of self.now) (rule_of self.now) v ≡ true → NextOffered (duty_of self.now) (rule_of self.now) (parts v) letter result }
    {
        Choices {
            digits: each_state(|q| self.next_digits(node, letter, q)),
            owing: self.owing(node, letter),
            turn: self.next_turn(node),
            duty: self.duty.steps(node.duty, letter),
        }
    }
}

ghost use Rattle.std.specs.Prelude.{◌≡◌, ℕ, ◌<◌, ◌≤◌, ◌⊎◌, slice_index};
ghost use Rattle.numbers.specs.Bits.{bit};
ghost use Rattle.numbers.specs.Below.{any_below};
ghost use Rattle.ranked.specs.Following.{is_upto};

// The lower of two digits, of which the first may be 0 for none.
fn lower(least: u8, held: u8) -> u8
    requires { 0 < held }
    ensures some { 0 < result }
    ensures below { result ≤ held }
    ensures before { 0 < least → result ≤ least }
    ensures one { (result ≡ held) ⊎ ((0 < least) × (result ≡ least)) }
{
    if least == 0 { held } else { least.min(held) }
}

// The digits from 1 to the most, or if `odd` the odd ones of them; only 0, if the most is 0.
fn digits_upto(most: u8, odd: bool) -> u16
    requires { most < 16 }
    ensures { (d : ℕ) → d < 16 → bit result d ≡ is_upto most odd d }
{
    if most == 0 {
        return 1;
    }
    let all = ((1u32 << (most + 1)) - 2) as u16;
    // the odd digits are the bits at odd places
    if odd { all & 0xaaaa } else { all }
}

// The digits that each state of the rule may have.
fn each_state<F: Fn(u8) -> u16>(digits: F) -> [u16; 6]
    requires { F.IsAlwaysCallable digits }
    ensures { (q : ℕ) → q < 6 → F.post digits q (slice_index result q) }
{
    let mut sets = [0u16; 6];
    for (q, set) in sets.iter_mut().enumerate() {
        *set = digits(q as u8);
    }
    sets
}
