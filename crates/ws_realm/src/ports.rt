//! What holds of message ports and of the streams at their ends.
pub use ws_tee_port_laws::ports::{
    each_post_can_be_sent, each_readable_end_closes_by_message, each_readable_end_is_lawful,
    each_step_posts_once, each_writable_end_is_lawful, each_writable_end_posts_close_last,
    each_writable_end_step, none_posts_an_error_while_readable,
};
