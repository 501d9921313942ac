// What the ranked graph tells of the words of a duty and a rule.
ghost use Rattle.rank.specs.Complement.{RankedComplements};
ghost use Rattle.rank.specs.Containment.{CyclesDecide, LassosTell, MeasuresTell, TakingIsDecided};

// A marked cycle can be reached exactly if the duty takes some repeating word that the rule does not take; if none can, the
// rule takes what the duty takes.
pub fn cycles_decide()
    ensures { CyclesDecide }
{}

// The letters of a lasso of the graph that passes a marked node in its loop are a word that the duty takes and the rule does
// not.
pub fn lassos_tell()
    ensures { LassosTell }
{}

// Nodes with falling measures show that no marked cycle can be reached, and that the rule takes what the duty takes.
pub fn measures_tell()
    ensures { MeasuresTell }
{}

// A chart takes a repeating word, or it does not.
pub fn taking_is_decided()
    ensures { TakingIsDecided }
{}

// As an automaton the graph accepts only endless words that the duty accepts and the rule does not, and all of these that
// repeat.
pub fn ranked_complements()
    ensures { RankedComplements }
{}
