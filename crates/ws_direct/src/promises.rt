//! What is done with the promises that algorithms give, and the calls of the host.
ghost use Rattle.std.specs.Prelude.{◌≡◌, [], true};
ghost use Rattle.ws_jobs.specs.Shorts.{reaction_in};
ghost use Rattle.ws_direct.specs.Directly.{IsReadyFor, PerformsDirectly};
ghost use Rattle.ws_direct.specs.Shortly.{calling, is_step, reacting};

use ws_jobs::Short;
use ws_steps::{Event, HostCall};
use ws_tables::Tables;
use ws_value::{HostId, PromiseId};

/// Has a step be performed once a promise settles.
#[inline(always)]
pub(crate) fn react(tables: &mut Tables, promise: PromiseId, short: Short)
    requires steps { is_step (reaction_in short) ≡ true }
    requires ready { IsReadyFor (reacting promise short) tables.old }
    ensures performed { PerformsDirectly (reacting promise short) tables.old tables.new }
    ensures quiet { tables.new.caused.effects ≡ [] }
{
    tables.promises.react_short(promise, short);
}

/// Calls a host's algorithm: the host hears of it by a new number, and a step is performed once the new promise that
/// stands for it settles.
#[inline(always)]
pub(crate) fn call_host(tables: &mut Tables, call: HostCall, short: Short)
    requires steps { is_step (reaction_in short) ≡ true }
    requires ready { IsReadyFor (calling call short) tables.old }
    ensures { PerformsDirectly (calling call short) tables.old tables.new }
{
    let id = HostId(tables.hosts.len() as u128);
    tables.promises.tell(Event::Host { id, call });
    let promise = tables.promises.fresh_waiting(short);
    tables.hosts.push(promise);
}
