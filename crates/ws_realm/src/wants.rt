//! What holds of transform streams into which the host enqueues only while an algorithm of its transformer is at work.
pub use ws_want_laws::{
    each_answer_is_read, each_answer_is_wanted, each_transform_is_read, each_transform_is_wanted,
    none_goes_on_pressed, none_waits_at_work, none_waits_for_an_answer,
};
