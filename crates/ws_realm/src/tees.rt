//! What holds of tees.
pub use ws_pipe_laws::locks::each_tee_owns_its_source;
pub use ws_tee_port_laws::tees::{
    each_branch_gets_a_first_part, each_branch_is_lawful, each_pair_stays,
    each_source_is_cancelled_by_both, each_tee_hands_to_both,
};
