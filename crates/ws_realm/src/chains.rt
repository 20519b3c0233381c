//! What holds of a chain of streams and pipes of a realm, from its opening on.
pub use ws_chain_laws::{
    each_call_keeps_chain, each_chain_begins, each_chain_ends, each_chain_has_room,
    each_chain_is_by_number, each_chain_keeps, each_end_was_flushed,
    each_event_is_heard_at_one_link, each_event_keeps_chain, each_job_keeps_chain, each_node_goes,
    each_nodes_call_brings, each_nodes_call_leaves, each_sound_link_is_whole, each_wiring_begins,
    each_wiring_goes,
};
