//! The waits of a thread: it looks again for a while, and then sleeps.
use crossbeam_utils::sync::Parker;
use std::hint::spin_loop;
use std::sync::Wait;

/// How often a thread looks again before it sleeps.
const LOOKS: u32 = 200;

/// How often it pauses between two looks. With these and the turns between them all looks take some tens of
/// microseconds, by how long the processor pauses.
const PAUSES: u32 = 10;

/// After so many waits in a row that ended asleep a thread mostly sleeps at once.
const FEW: u32 = 3;

/// One wait of so many has looks even then: whether a neighbour has a processor of its own again shows in no other way.
const SELDOM: u32 = 8;

/// How a thread waits that finds nothing to do.
#[derive(Drop)]
pub struct Waits {
    /// How often it has looked again in this wait.
    looks: u32,
    /// How many waits in a row ended asleep.
    asleep: u32,
}

impl Waits {
    /// Of a thread that hasn't waited yet.
    pub fn new() -> Waits {
        Waits {
            looks: 0,
            asleep: 0,
        }
    }

    /// After a turn that did something.
    pub fn end(&mut self) {
        if self.looks > 0 {
            self.asleep = 0;
        }
        self.looks = 0;
    }

    /// Whether this wait has looks, and has some left.
    fn has_looks(&self) -> bool {
        let looks = self.asleep < FEW || self.asleep % SELDOM == 0;
        looks && self.looks < LOOKS
    }

    /// After a turn that found nothing to do: the next one comes soon for a while, since a neighbour mostly answers
    /// sooner than a thread is woken. Then the thread sleeps until it is woken. Where neighbours share a processor
    /// looks only keep them from it, so a thread that slept some waits in a row has few. It never yields its processor:
    /// others who are busy would have it for longer than that.
    pub fn pause<R: Wait>(&mut self, rt: &R, parker: &Parker) {
        if self.has_looks() {
            self.looks = self.looks.saturating_add(1);
            for _ in 0..PAUSES {
                spin_loop();
            }
        } else {
            self.looks = 0;
            self.asleep = self.asleep.wrapping_add(1);
            parker.park(rt);
        }
    }
}
