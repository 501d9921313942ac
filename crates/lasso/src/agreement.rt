// What is true of every lasso and every chart, as contracts of functions that do nothing.
ghost use Rattle.lasso.specs.Agreement.{PlacesRepeat, RunsReturn, TakenIsAccepted};

// How the places of a lasso follow each other, and which positions share one.
pub fn places_repeat()
    ensures { PlacesRepeat }
{}

// Every run that accepts comes back to one of its states, past a marked one.
pub fn runs_return()
    ensures { RunsReturn }
{}

// A chart takes a word exactly if it accepts the endless word by Büchi's condition.
pub fn acceptance_agrees()
    ensures { TakenIsAccepted }
{}
