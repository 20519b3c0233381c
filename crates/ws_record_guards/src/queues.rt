//! Queues with sizes, queues of bytes, and the rings in which they lie.
ghost use Rattle.std.specs.Prelude.{◌≡◌, ◌≤◌, ◌<◌, ◌+◌, ◌-ℤ◌, ◌∷◌, ◌++◌, pos, [], length};
ghost use Rattle.ws_queue.specs.Seen.{first_pair, written};
ghost use Rattle.ws_steps.specs.Queues as queues;

use ws_queue::{ByteQueue, SizedQueue};
use ws_ring::Ring;
use ws_value::Room;

/// Takes the first entry, with its size.
pub fn pop<T: Drop>(queue: &mut SizedQueue<T>) -> Option<(T, u64)>
    ensures entry { result ≡ first_pair queue.old.items }
    ensures rest { queue.new ≡ record queue.old { items = queues.rest_of queue.old.items } }
{
    queue.pop()
}

/// How far the sum of the sizes is below a high-water mark.
pub fn desired<T: Drop>(queue: &SizedQueue<T>, hwm: u64) -> i128
    ensures { result ≡ pos hwm -ℤ pos (queues.total_of queue.now.items) }
{
    queue.desired(hwm)
}

/// Empties the queue.
pub fn reset<T: Drop>(queue: &mut SizedQueue<T>)
    ensures { queue.new ≡ record queue.old { items = [] } }
{
    queue.reset();
}

/// Moves the first `n` bytes into the room, the first of them at this place.
pub fn take_into(queue: &mut ByteQueue, room: &mut Room, place: usize, n: usize)
    requires fits { place + n ≤ length room.old }
    requires enough { n ≤ queues.total_bytes queue.old.entries }
    ensures room { room.new ≡ written place (queues.front_bytes n queue.old.entries) room.old }
    ensures rest { queue.new ≡ record queue.old { entries = queues.after_bytes n queue.old.entries } }
{
    queue.take_into(room, place, n);
}

/// Puts an item at the end of a ring.
pub fn push_back<T: Drop>(ring: &mut Ring<T>, item: T)
    requires { length ring.old.items < ring.old.capacity }
    ensures items { ring.new.items ≡ ring.old.items ++ item ∷ [] }
    ensures len { length ring.new.items ≡ length ring.old.items + 1 }
    ensures capacity { ring.new.capacity ≡ ring.old.capacity }
{
    ring.push_back_reserved(item);
}
