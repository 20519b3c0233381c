//! Laws over what stages put out and what flows through nodes, each said of the definitions alone.

ghost use Rattle.ws_flow.specs.Stages.{EachPairUndoes};
ghost use Rattle.ws_flow.specs.Laws.{EachAcceptedPlan, EachChunkIsShort, EachCloseIsWhole, EachCuttingIsAlike, EachEndingStays, EachFaultIsFound, EachFinishIsWhole, EachFirstBytesStay, EachFirstPartStays, EachFlowGoesOn, EachInputIsOne, EachLyingChunkIsShort, EachNodeFlows, EachOutputIsTold, EachPlaceKeeps, EachRunFlows, EachTurnKeeps};

/// What comes out of stages for a first part of an input is a first part of what comes out for all of it, and goes on
/// as more comes in.
///
/// What comes out of a joined input is what comes out of its first part, and then what comes of the rest. An ending
/// that is bad stays. An output closes only over an input that closed and stages that ended fine.
///
/// Of: stages.
pub fn each_stage_flows()
    ensures goes_on { EachFlowGoesOn }
    ensures first_part { EachFirstPartStays }
    ensures ending { EachEndingStays }
    ensures close { EachCloseIsWhole }
{}

/// For each plan that isn't refused, how the input is cut into chunks changes neither the joined output nor how a
/// stage ends.
///
/// What a first part of the bytes gives, joined, is a first part of what all of them give.
///
/// Of: stages, plans.
pub fn each_cutting_is_alike()
    ensures cutting { EachCuttingIsAlike }
    ensures first_bytes { EachFirstBytesStay }
{}

/// In each plan that isn't refused no chunk reaches 2^25 bytes where none that came in is longer than 4,096, whether
/// it came out of all stages or lies between them.
///
/// That is in a node before a stage, or behind the last. The law also says what such a plan has.
///
/// Of: plans, stages.
pub fn each_accepted_plan()
    ensures accepted { EachAcceptedPlan }
    ensures short { EachChunkIsShort }
    ensures lying { EachLyingChunkIsShort }
{}

/// What a node put out, with what still lies in it, is what its stages make of what came in, or was cut short of it
/// and says so.
///
/// So it is from one turn to the next.
///
/// Of: nodes, stages.
pub fn each_node_flows()
    ensures node { EachNodeFlows }
    ensures turn { EachTurnKeeps }
    ensures place { EachPlaceKeeps }
{}

/// What the output of a run over any number of nodes got is what the stages make of the bytes that were taken, or a
/// first part of it.
///
/// From the bytes that were taken to those that the output got, what a chain of nodes put out, with what still lies
/// in it, is what their stages make of it, or was cut short of it and says so. Where the output was finished it has
/// all of it. A stage that is bad is so over what came to it.
///
/// Of: nodes, stages.
pub fn each_run_flows()
    ensures got { EachRunFlows }
    ensures fault { EachFaultIsFound }
    ensures finish { EachFinishIsWhole }
{}

/// What each stage puts out and where it is bad is told of whole lists, and its machine, which takes chunk by chunk,
/// puts out just that.
///
/// Each stage is told twice: as a machine, and by what its whole output is. The lines, blocks, frames and bytes that
/// come out, joined with what is left, are the input; each is of its form; and where the input is malformed, the
/// first byte that is wrong has the place and the code that are told. A stage that sees bytes sees all of them at
/// once: how they are cut shows only in how what comes out is packed.
///
/// Of: stages.
pub fn each_output_is_told()
    ensures input { EachInputIsOne }
    ensures output { EachOutputIsTold }
{}

/// `unhex` of `hex`, `unframe` of `frame`, and `mask` twice give back what went in.
///
/// Of: stages.
pub fn each_pair_undoes()
    ensures { EachPairUndoes }
{}
