// What is proved of the search: each contract below is a theorem.
ghost use Rattle.search.specs.Statement.{SearchSound, ClosureCloses, LinkedTells, LargerCuts, RunKeeps, RunAdds, RunCounts, EitherEnd, NeighboursSuffice, VectorsTell, LowestDoor};
ghost use Rattle.search.specs.Cases.{SixNetworksSearched};

/// After any number of tries, the rows are distinct minimal cuts, all of them once the search is finished, and the tries are few.
pub fn search_is_sound()
    ensures { SearchSound }
{}

/// What closures and the questions of an aim are, in terms of chains; and neighbours stand for the branch list.
pub fn closure_closes()
    ensures chains { ClosureCloses }
    ensures questions { LinkedTells }
    ensures neighbours { NeighboursSuffice }
{}

/// A set that holds a cut is a cut; portions add up, count their tries and leave what was listed; from the door's end the cuts are the same.
pub fn search_laws_hold()
    ensures larger { LargerCuts }
    ensures keeps { RunKeeps }
    ensures adds { RunAdds }
    ensures counts { RunCounts }
    ensures ends { EitherEnd }
{}

/// Which doors a row's branch set cuts off.
pub fn doors_share_cuts()
    ensures vectors { VectorsTell }
    ensures lowest { LowestDoor }
{}

/// Six small networks, searched to the end.
pub fn worked_cases_hold()
    ensures { SixNetworksSearched }
{}
