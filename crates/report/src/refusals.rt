// Which of the two texts is refused, or the bench where neither is to blame.
ghost use Rattle.std.specs.Prelude.{Some, MatchResult};
ghost use Rattle.report.specs.ReadCharts.{Holds};
ghost use Rattle.report.specs.Readings.{OfFile};
ghost use Rattle.report.specs.Shown.{side_text, refusal_text};

use crate::read_charts::ReadChart;
use bench::BenchFault;
use fault::Fault;
use std::fmt;

#[derive(Clone, Copy, PartialEq, Eq, Debug)]
pub enum Side {
    // what the machine may do
    Duty,
    // what it is to keep to
    Rule,
    // the two held against each other
    Bench,
}

#[derive(Clone, Copy, PartialEq, Eq, Debug)]
pub struct Refusal {
    pub side: Side,
    pub fault: BenchFault,
}

impl fmt::Display for Side {
    ghost output = { λ s. Some (side_text s) };

    fn fmt<W: fmt::Write>(&self, f: &mut fmt::Formatter<W>) -> fmt::Result {
        f.write_str(match *self {
            Side::Duty => "duty",
            Side::Rule => "rule",
            Side::Bench => "bench",
        })
    }
}

impl fmt::Display for Refusal {
    ghost output = { λ r. Some (refusal_text r) };

    fn fmt<W: fmt::Write>(&self, f: &mut fmt::Formatter<W>) -> fmt::Result {
        let told = self.fault.refusal();
        write!(
            f,
            "refused at place\n{} {} {}\n",
            told.number, self.side, told.place
        )
    }
}

// Reads a text; the fault of its chart is told as one of the bench.
fn read_chart(text: &[u8]) -> Result<ReadChart, BenchFault>
    ensures { MatchResult result (Holds text.now) (OfFile text.now) }
{
    let chart = ReadChart::read(text)?;
    Ok(chart)
}

impl Side {
    ghost use Rattle.std.specs.Prelude.{◌≡◌};

    // Reads the text of this side.
    pub(crate) fn read(self, text: &[u8]) -> Result<ReadChart, Refusal>
        ensures { MatchResult result (Holds text.now) (λ r. (r.side ≡ self) × OfFile text.now r.fault) }
    {
        read_chart(text).map_err(|fault| Refusal { side: self, fault })
    }
}
