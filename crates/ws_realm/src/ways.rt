//! What holds of a pipe between any two streams of a realm, also halves of identity transform streams, and of the way
//! through these.
pub use ws_identity_laws::{
    each_act_is_told, each_any_free_pair_stays, each_any_link_begins, each_identity_enqueues,
    each_identity_passes, each_link_is_any, each_link_passes, each_new_pair_is_free,
    each_take_is_told, each_take_of_bytes_is_told, each_way_is_heard, each_way_opens,
    each_way_passes,
};
