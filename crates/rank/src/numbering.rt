// The numbers of the ranked graph's nodes.
ghost use Rattle.rank.specs.Numbering.{NumbersCorrespond};

// Each node has one number, which tells all its parts.
pub fn numbers_correspond()
    ensures { NumbersCorrespond }
{}
