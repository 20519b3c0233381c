//! How descriptors are filled from the queue, one after the other.
ghost use Rattle.std.specs.Prelude.{◌≡◌, ◌≤◌, ◌+◌, ◌++◌, All, cond, drop, false, length, take};
ghost use Rattle.std.specs.VecDeque.{deque_capacity, deque_len};
ghost use Rattle.ws_steps.specs.Descriptors.{process_descriptors};
ghost use Rattle.ws_descriptors.specs.Seen.{IsFine, before, processing};

use crate::descriptor::Descriptor;
use std::collections::VecDeque;
use ws_queue::ByteQueue;

/// Fills the first descriptor, where there is one and bytes are queued. Where it is ready, it goes behind the others
/// that are.
fn process_first(
    descriptors: &mut VecDeque<Descriptor>,
    queue: &mut ByteQueue,
    ready: &mut VecDeque<Descriptor>,
) -> bool
    requires fine { All IsFine descriptors.old.items }
    requires places { deque_len ready.old + deque_len descriptors.old ≤ deque_capacity ready.old }
    ensures processed { before ready.new.items (processing result descriptors.new.items queue.new.entries)
        ≡ before ready.old.items (process_descriptors descriptors.old.items queue.old.entries) }
    ensures fine { All IsFine descriptors.new.items }
    ensures places { deque_len ready.new + deque_len descriptors.new ≡ deque_len ready.old + deque_len descriptors.old }
    ensures goes_on { deque_len descriptors.new + cond result 1 0 ≡ deque_len descriptors.old }
    ensures capacity { deque_capacity descriptors.new ≡ deque_capacity descriptors.old }
    ensures ready_capacity { deque_capacity ready.new ≡ deque_capacity ready.old }
    ensures queue_capacity { queue.new.capacity ≡ queue.old.capacity }
    ensures queue { length queue.new.entries ≤ length queue.old.entries }
{
    if queue.is_empty() {
        return false;
    }
    let Some(mut first) = descriptors.pop_front() else {
        return false;
    };
    let is_ready = first.fill(queue);
    if is_ready {
        ready.push_back_reserved(first);
    } else {
        descriptors.push_front_reserved(first);
    }
    is_ready
}

/// ReadableByteStreamControllerProcessPullIntoDescriptorsUsingQueue: those that are ready go behind the others that
/// are.
pub fn process(
    descriptors: &mut VecDeque<Descriptor>,
    queue: &mut ByteQueue,
    ready: &mut VecDeque<Descriptor>,
)
    requires fine { All IsFine descriptors.old.items }
    requires places { deque_len ready.old + deque_len descriptors.old ≤ deque_capacity ready.old }
    ensures processed { before ready.new.items (processing false descriptors.new.items queue.new.entries)
        ≡ before ready.old.items (process_descriptors descriptors.old.items queue.old.entries) }
    ensures fine { All IsFine descriptors.new.items }
    ensures places { deque_len ready.new + deque_len descriptors.new ≡ deque_len ready.old + deque_len descriptors.old }
    ensures capacity { deque_capacity descriptors.new ≡ deque_capacity descriptors.old }
    ensures ready_capacity { deque_capacity ready.new ≡ deque_capacity ready.old }
    ensures queue_capacity { queue.new.capacity ≡ queue.old.capacity }
    ensures queue { length queue.new.entries ≤ length queue.old.entries }
{
    let mut going = true;
    while going {
        going = process_first(descriptors, queue, ready);
    }
}

/// Moves the first `n` descriptors, as far as there are so many, behind those that are ready.
pub fn move_first(
    descriptors: &mut VecDeque<Descriptor>,
    ready: &mut VecDeque<Descriptor>,
    n: usize,
)
    requires fine { All IsFine descriptors.old.items }
    requires places { deque_len ready.old + deque_len descriptors.old ≤ deque_capacity ready.old }
    ensures ready { ready.new.items ≡ ready.old.items ++ take n descriptors.old.items }
    ensures others { descriptors.new.items ≡ drop n descriptors.old.items }
    ensures fine { All IsFine descriptors.new.items }
    ensures places { deque_len ready.new + deque_len descriptors.new ≡ deque_len ready.old + deque_len descriptors.old }
    ensures capacity { deque_capacity descriptors.new ≡ deque_capacity descriptors.old }
    ensures ready_capacity { deque_capacity ready.new ≡ deque_capacity ready.old }
{
    let mut left = n;
    while left > 0 {
        let Some(first) = descriptors.pop_front() else {
            return;
        };
        ready.push_back_reserved(first);
        left -= 1;
    }
}
