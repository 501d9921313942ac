// What the rules of slips are called. A slip is a certificate for a verdict; each kind of slip has rules of its own, each with
// a number.
ghost use Rattle.std.specs.Prelude.{◌≡◌, Some};
ghost use Rattle.slip.specs.Shown.{kind_text};
ghost use Rattle.slip.specs.Numbered.{rule_kind, rule_number, told_rule};

use fault::RuleNumber;
use std::fmt;

// What a slip is to show of a duty and a rule.
#[derive(Clone, Copy, PartialEq, Eq, Debug)]
pub enum Kind {
    // the rule takes every repeating word that the duty takes
    Keep,
    // it does not
    Break,
}

impl fmt::Display for Kind {
    ghost output = { λ k. Some (kind_text k) };

    fn fmt<W: fmt::Write>(&self, f: &mut fmt::Formatter<W>) -> fmt::Result {
        f.write_str(match *self {
            Kind::Keep => "keep",
            Kind::Break => "break",
        })
    }
}

// The rules of slips that show keep.
#[derive(Clone, Copy, PartialEq, Eq, Debug)]
pub enum KeepRule {
    // a record has a node, and letter 0
    Node,
    // each successor of a record's node has a record, with a measure that falls where it should
    Next,
    // each start has a record
    Starts,
}

// The rules of slips that show break.
#[derive(Clone, Copy, PartialEq, Eq, Debug)]
pub enum BreakRule {
    // a record has a node, a letter of the charts, and measure 0
    Node,
    // the first record has a start
    Start,
    // the node of the record that follows is a successor by this record's letter
    Next,
    // a record of the loop has a marked node
    Mark,
}

// A rule of either kind.
#[derive(Clone, Copy, PartialEq, Eq, Debug)]
pub enum Rule {
    Keep(KeepRule),
    Break(BreakRule),
}

impl Rule {
    // The kind of slips that it is a rule of.
    pub fn kind(self) -> Kind
        ensures { result ≡ rule_kind self }
    {
        match self {
            Rule::Keep(_) => Kind::Keep,
            Rule::Break(_) => Kind::Break,
        }
    }

    // Its number among the rules of its kind.
    pub fn number(self) -> u8
        ensures { result ≡ rule_number self }
    {
        match self {
            Rule::Keep(KeepRule::Node) | Rule::Break(BreakRule::Node) => 1,
            Rule::Keep(KeepRule::Next) | Rule::Break(BreakRule::Start) => 2,
            Rule::Keep(KeepRule::Starts) | Rule::Break(BreakRule::Next) => 3,
            Rule::Break(BreakRule::Mark) => 4,
        }
    }

    // How a refusal tells it.
    pub fn told(self) -> RuleNumber
        ensures { result ≡ told_rule self }
    {
        let number = self.number();
        match self {
            Rule::Keep(_) => RuleNumber::Keep(number),
            Rule::Break(_) => RuleNumber::Break(number),
        }
    }
}

// A rule that a slip breaks, and the place of the record at which it does. What is asked of all records together is said at
// the place after the last.
#[derive(Clone, Copy, PartialEq, Eq, Debug)]
pub struct Breach {
    pub rule: Rule,
    pub place: usize,
}
