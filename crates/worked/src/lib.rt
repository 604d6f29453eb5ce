// The cases worked by hand, shown together from the definitions by computation.
#![tactic(auto)]

ghost use Rattle.worked.specs.Cases.{WorkedByHand};

/// Ten small studies: rows, vectors, tries, status, refusals, exact chance and bounds.
pub fn cases_hold()
    ensures { WorkedByHand }
{}
