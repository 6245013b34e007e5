//! How a thread passes the time between two tries of what another thread may make possible. (own choice)
//!
//! It spins and gives its processor away, as `crossbeam_utils`' `Backoff` does, and after many pauses in vain it sleeps for moments,
//! which become longer. Threads that spin or yield keep the processors busy, and where there are more of them than processors, one of
//! them may run instead of the one that they wait for.
//!
//! A loop that tries makes one `BackOff`, calls `pause` after each try that was in vain, and `reset` after each that made progress.
//! Where other threads count in `Changes` what may make a try worth while, the loop calls `pause_watching`, which ends early then.

ghost use Rattle.std.specs.Prelude.{◌≤◌};

use crate::changes::Watched;
use crossbeam_utils::Backoff;
use std::sync::Wait;
use std::sync::atomic::AtomicU64;
use std::time::Duration;
use std::{hint, thread};

/// How often a thread that has not slept yet checks what it watches for, before it gives its processor away.
const SPINS: u32 = 100;

/// How often a thread gives its processor away before it sleeps for the first time.
const YIELDS_AT_FIRST: u32 = 400;

/// How often it does so between its first sleep and its second.
const YIELDS_BETWEEN: u32 = 16;

/// How long its first sleep is.
const SLEEP_MICROS: u64 = 50;

/// How often the length of a sleep is doubled, and with it the number of yields after it. So a wait takes about the same small share
/// of a processor, however long it is, and no sleep is longer than 0.8 milliseconds.
const MOST_DOUBLINGS: u32 = 4;

/// The pauses of one thread between its tries.
#[derive(Drop)]
pub struct BackOff {
    /// The first pauses: spins and yields.
    backoff: Backoff,
    /// How often the thread will give its processor away before it sleeps.
    yields: u32,
    /// How often the length of the next sleep was doubled.
    doublings: u32,
    /// Nobody else knows this word, so a sleep on it lasts its time.
    word: AtomicU64,
    ghost few: { doublings ≤ 4 },
}

impl BackOff {
    /// A back-off whose first pauses are short.
    pub fn new() -> BackOff {
        BackOff {
            backoff: Backoff::new(),
            yields: YIELDS_AT_FIRST,
            doublings: 0,
            word: AtomicU64::new(0),
        }
    }

    /// The next pauses are short again: to be called when a try made progress.
    pub fn reset(&mut self) {
        self.backoff.reset();
        self.yields = YIELDS_AT_FIRST;
        self.doublings = 0;
    }

    /// Pauses once, after a try that was in vain: spins, gives the processor away, or sleeps.
    pub fn pause<R: Wait>(&mut self, rt: &R) {
        if !self.backoff.is_completed() {
            self.backoff.snooze();
        } else {
            self.give_way(rt);
        }
    }

    /// Pauses once, after a try that was in vain, and ends early where what is watched for has come. True where it has come.
    pub fn pause_watching<R: Wait, W: Watched>(&mut self, rt: &R, watched: &W) -> bool {
        let spins = if self.doublings == 0 { SPINS } else { 1 };
        for _ in 0..spins {
            if watched.has_come() {
                return true;
            }
            hint::spin_loop();
        }
        self.give_way(rt);
        watched.has_come()
    }

    /// Gives the processor away, or sleeps where that was done as often as `yields` says: the longer pauses of both kinds of `pause`.
    fn give_way<R: Wait>(&mut self, rt: &R) {
        if self.yields > 0 {
            self.yields -= 1;
            thread::yield_now();
        } else {
            self.sleep(rt);
        }
    }

    /// Sleeps once, for `give_way`; the next sleep is twice as long, up to the most doublings.
    fn sleep<R: Wait>(&mut self, rt: &R) {
        let time = Duration::from_micros(SLEEP_MICROS << self.doublings);
        self.word.park_timeout(rt, 0, time);
        self.yields = YIELDS_BETWEEN << self.doublings;
        if self.doublings < MOST_DOUBLINGS {
            self.doublings += 1;
        }
    }
}
