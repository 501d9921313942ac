// What is told of a duty and a rule.
ghost use Rattle.std.specs.Prelude.{Some};
ghost use Rattle.bench.specs.Shown.{verdict_text};

use slip::Kind;
use std::fmt;

#[derive(Clone, Copy, PartialEq, Eq, Debug)]
pub struct Verdict {
    pub kind: Kind,
    // how many nodes of the ranked graph can be reached
    pub nodes: usize,
}

impl fmt::Display for Verdict {
    ghost output = { λ v. Some (verdict_text v) };

    fn fmt<W: fmt::Write>(&self, f: &mut fmt::Formatter<W>) -> fmt::Result {
        write!(f, "verdict nodes\n{} {}\n", self.kind, self.nodes)
    }
}
