//! How those are woken who drive the nodes of a run.
use crossbeam_utils::sync::Unparker;
use std::sync::atomic::{AtomicBool, Ordering};

/// What others know of a worker: how it is woken, and whether it has a thread.
#[derive(Drop)]
pub struct Bell {
    unparker: Unparker,
    refused: AtomicBool,
}

/// What those know of each other who drive the nodes of a run. The nodes have numbers: 0 is the first one, which the
/// caller drives, then each worker's has the worker's number, and the caller drives that behind them.
#[derive(Drop)]
pub struct Bells {
    caller: Unparker,
    workers: Vec<Bell>,
    last: u32,
}

impl Bell {
    /// Of a worker that is woken by this.
    pub fn new(unparker: Unparker) -> Bell {
        Bell {
            unparker,
            refused: AtomicBool::new(false),
        }
    }
}

impl Bells {
    /// The last of these workers has this number.
    pub(crate) fn new(caller: Unparker, workers: Vec<Bell>, last: u32) -> Bells {
        Bells {
            caller,
            workers,
            last,
        }
    }

    /// What is known of the worker of this number.
    fn worker(&self, number: u32) -> Option<&Bell> {
        match number.checked_sub(1) {
            Some(place) => self.workers.get(place as usize),
            None => None,
        }
    }

    /// Whether the caller drives the node of this worker.
    pub fn is_refused(&self, number: u32) -> bool {
        match self.worker(number) {
            Some(bell) => bell.refused.load(Ordering::SeqCst),
            None => true,
        }
    }

    /// From now on the caller drives the node of this worker.
    pub fn refuse(&self, number: u32) {
        if let Some(bell) = self.worker(number) {
            bell.refused.store(true, Ordering::SeqCst);
        }
    }

    /// Wakes whoever drives the node of this number.
    fn wake(&self, number: u32) {
        match self.worker(number) {
            Some(bell) => {
                if bell.refused.load(Ordering::SeqCst) {
                    self.caller.unpark();
                } else {
                    bell.unparker.unpark();
                }
            }
            None => self.caller.unpark(),
        }
    }

    /// Wakes whoever drives the node of the first worker.
    pub fn wake_first(&self) {
        self.wake(1);
    }

    /// Wakes whoever drives the node of the last worker.
    pub fn wake_last(&self) {
        self.wake(self.last);
    }

    /// After a turn of this node: wakes those who drive the nodes before and behind it, where it is over or has posted
    /// something to them. How many messages it had posted to each is told, and how many it has. Nobody waits for a
    /// message to be taken: a row is never full.
    pub fn wake_after(&self, number: u32, over: bool, before: (u64, u64), now: (u64, u64)) {
        if over || now.0 != before.0 {
            self.wake(number.saturating_sub(1));
        }
        if over || now.1 != before.1 {
            self.wake(number.saturating_add(1));
        }
    }
}
