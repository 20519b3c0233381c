//! The options of a pipe.
ghost use Rattle.std.specs.Prelude.{◌≡◌, map};
ghost use Rattle.ws_grammar.specs.Options.{no_options, signal_option, with_option, options_of};

use crate::values::signal_named;
use ws_steps::Prevent;
use ws_value::SignalId;

/// What the options of a pipe say.
#[derive(Clone, Copy)]
pub struct PipeOptions {
    pub prevent: Prevent,
    pub signal: Option<SignalId>,
}

/// A pipe without options.
fn no_options() -> PipeOptions
    ensures { result ≡ no_options }
{
    let prevent = Prevent {
        close: false,
        abort: false,
        cancel: false,
    };
    PipeOptions {
        prevent,
        signal: None,
    }
}

/// The signal that an option names.
fn signal_option(word: &[u8]) -> Option<SignalId>
    ensures { result ≡ signal_option word.now }
{
    signal_named(word.strip_prefix(b"signal=".as_slice())?)
}

/// An option beside those that were given before.
fn with_option(given: PipeOptions, word: &[u8]) -> Option<PipeOptions>
    ensures { result ≡ with_option given word.now }
{
    let PipeOptions { prevent, signal } = given;
    if word == b"prevent-close".as_slice() {
        let prevent = Prevent {
            close: true,
            ..prevent
        };
        (!given.prevent.close).then_some(PipeOptions { prevent, signal })
    } else if word == b"prevent-abort".as_slice() {
        let prevent = Prevent {
            abort: true,
            ..prevent
        };
        (!given.prevent.abort).then_some(PipeOptions { prevent, signal })
    } else if word == b"prevent-cancel".as_slice() {
        let prevent = Prevent {
            cancel: true,
            ..prevent
        };
        (!given.prevent.cancel).then_some(PipeOptions { prevent, signal })
    } else if signal.is_none() {
        signal_option(word).map(|signal| PipeOptions {
            prevent,
            signal: Some(signal),
        })
    } else {
        None
    }
}

/// The options that words spell.
pub fn options_of(words: &[&[u8]]) -> Option<PipeOptions>
    ensures { result ≡ options_of (map (λ word. word.now) words.now) }
{
    let mut options = no_options();
    for word in words {
        options = with_option(options, word)?;
    }
    Some(options)
}
