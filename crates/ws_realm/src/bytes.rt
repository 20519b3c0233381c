//! What holds of byte streams, and of what reads into rooms get.
pub use ws_byte_laws::{
    each_byte_step, each_byte_stream_is_lawful, each_byte_stream_is_sound,
    each_closed_byte_stream_keeps, each_throwing_close_errs, entered_bytes_were_accepted,
};
pub use ws_pipe_laws::locks::each_byte_stream_is_meant;
pub use ws_room_read_laws::{each_closed_room_is_handed_out, each_room_is_whole};
