use ws_flow::Refusal;

/// Why the text of a pipeline file is no plan.
#[derive(Clone, Copy)]
pub enum PlanRefused {
    /// The first of the causes that is so, in the order of docs/PIPELINE.md.
    Cause(Refusal),

    NoMemory,
}
