// Why a call refuses: what all layers share. Each layer's fault holds the fault of the layer below whole, so that nothing is lost on
// the way up; the faults of texts and of charts, which every layer may meet, stand here, and each other one in the crate whose calls
// answer it.
#![tactic(auto)]

ghost use Rattle.std.specs.Prelude.{◌≡◌};
ghost use Rattle.fault.specs.Refusals.{at, chart_refusal, plain, text_refusal};
ghost use Rattle.fault.specs.declared.ChartFault.TheVariants.{Text};

// A rule of slips, which are certificates, by its number among the rules of its kind.
#[derive(Clone, Copy, PartialEq, Eq, Debug)]
pub enum RuleNumber {
    // of slips that show keep
    Keep(u8),
    // of slips that show break
    Break(u8),
}

// A refusal as its reader sees it.
#[derive(Clone, Copy, PartialEq, Eq, Debug)]
pub struct Refusal {
    pub number: u8,
    // the line or place that it tells, or 0
    pub place: usize,
    // the rule that a slip breaks, if it tells one
    pub rule: Option<RuleNumber>,
}

impl Refusal {
    // A refusal that tells a line or place, and no rule.
    pub fn at(number: u8, place: usize) -> Refusal
        ensures { result ≡ at number place }
    {
        Refusal {
            number,
            place,
            rule: None,
        }
    }

    // A refusal that tells its number alone.
    pub fn plain(number: u8) -> Refusal
        ensures { result ≡ plain number }
    {
        Refusal::at(number, 0)
    }
}

// A fault of any layer.
pub trait Fault {
    ghost use Rattle.fault.specs.declared.Refusal.{Refusal};

    // its number, and what it tells
    ghost told: { Self → Refusal };

    // What a reader is told of it.
    fn refusal(&self) -> Refusal
        ensures { result ≡ told self.now };
}

// A chart's text is refused at a line, counted from 1; line 0 is the text as a whole.
#[derive(Clone, Copy, PartialEq, Eq, Debug)]
pub enum TextFault {
    // the line has the wrong form
    Form(usize),
    // the line has the right form, and names a number or letter out of range, or a state out of turn
    Range(usize),
}

impl Fault for TextFault {
    ghost told = { text_refusal };

    fn refusal(&self) -> Refusal {
        match *self {
            TextFault::Form(line) => Refusal::at(1, line),
            TextFault::Range(line) => Refusal::at(2, line),
        }
    }
}

// A chart cannot be made.
#[derive(Clone, Copy, PartialEq, Eq, Debug)]
pub enum ChartFault {
    // its text is refused
    Text(TextFault),
    // fewer rows were lent than it has pairs of a state and a letter
    FewRows,
    // it would leave the limits of charts, or the letters of its two parts differ
    Limits,
}

impl From<TextFault> for ChartFault {
    ghost from_gives = { λ e r. r ≡ Text e };

    fn from(e: TextFault) -> ChartFault {
        ChartFault::Text(e)
    }
}

impl Fault for ChartFault {
    ghost told = { chart_refusal };

    fn refusal(&self) -> Refusal {
        match *self {
            ChartFault::Text(e) => e.refusal(),
            ChartFault::FewRows => Refusal::plain(3),
            ChartFault::Limits => Refusal::plain(4),
        }
    }
}
