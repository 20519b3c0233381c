//! Laws of what tees do with their sources and branches, over every run.

ghost use Rattle.ws_steps.specs.TeeLaws.{EachBranchIsLawful, EachPairStays, EachSourceIsCancelledByBoth, EachTeeHandsToBoth};
ghost use Rattle.ws_tee_port_laws.specs.tees.Parts.{EachBranchGetsAFirstPart};

/// The two reasons that a tee keeps stay, over any run, from any slots.
///
/// Of: tees, cancel1Algorithm.
pub fn each_pair_stays()
    ensures { EachPairStays }
{}

/// The branches of a tee are two readable streams of their own that perform its algorithms, each of them lawful as
/// any other.
///
/// Of: tees, the steps up to the branches.
pub fn each_branch_is_lawful()
    ensures { EachBranchIsLawful }
{}

/// The source of a tee isn't cancelled while one of its branches isn't, and once both are, it was, once, with the
/// pair of their reasons.
///
/// While a branch isn't cancelled, nobody has cancelled the source since the tee was made. It is cancelled in the
/// step in which the second of them is.
///
/// Of: tees, cancel1Algorithm, cancel2Algorithm.
pub fn each_source_is_cancelled_by_both()
    ensures { EachSourceIsCancelledByBoth }
{}

/// What entered a branch of a tee, whether it was cancelled or not, is a first part of what the source gave.
///
/// What the source gave since it was teed was handed to the branches, in its order, but for the chunk that the tee
/// holds. So no chunk enters a branch twice, before one that the source gave first, or from elsewhere, and none is
/// left out between others.
///
/// Of: tees, the chunk steps of its read request.
pub fn each_branch_gets_a_first_part()
    ensures { EachBranchGetsAFirstPart }
{}

/// What the source of a tee gave since it was teed, whoever asked, entered each branch that isn't cancelled, in this
/// order, but for the chunk that the tee holds, and of a branch that was cancelled a first part of it did.
///
/// Nothing else entered.
///
/// Of: tees, the chunk steps of its read request, pullAlgorithm.
pub fn each_tee_hands_to_both()
    ensures { EachTeeHandsToBoth }
{}
