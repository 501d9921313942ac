// What the lines of a chart's text say.

// Which kind of line comes next.
#[derive(Clone, Copy, PartialEq, Eq, Debug)]
pub enum Stage {
    // the word `letters`
    AtTitle,
    // the number of letters
    AtCount,
    // the names of the columns of the states
    AtColumns,
    // a state, or the names of the columns of the steps
    AtStates,
    // a step
    AtSteps,
}

#[derive(Clone, Copy, PartialEq, Eq, Debug)]
pub struct StateLine {
    pub number: u8,
    pub start: bool,
    pub mark: bool,
}

// The letters of a step line. Not an Option of a letter: None would read as no letter, where every letter is meant.
#[derive(Clone, Copy, PartialEq, Eq, Debug)]
pub enum By {
    Letter(u8),
    Every,
}

#[derive(Clone, Copy, PartialEq, Eq, Debug)]
pub struct StepLine {
    pub from: u8,
    pub by: By,
    pub to: u8,
}

// One line.
#[derive(Clone, Copy, PartialEq, Eq, Debug)]
pub enum Entry {
    Title,
    Count(u8),
    Columns,
    State(StateLine),
    Heading,
    Step(StepLine),
}
