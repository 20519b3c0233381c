//! The printed text of a script's tasks: replies and events. The text is a definition, in `specs/`, and each call is
//! proved to append exactly it.
#![tactic(auto)]

mod append;
mod events;
mod replies;
mod values;

pub use events::{
    print_again, print_host, print_post, print_reply, print_settled, print_signal, tee_in_call,
    tee_in_outcome,
};
pub use values::tee_in;
