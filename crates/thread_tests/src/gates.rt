//! Gates, which are called before and after steps, and which wait for what other threads do
//! meanwhile.
use job_state::{AnyJob, Back, Done};
use std::sync::atomic::AtomicU64;
use std::sync::atomic::Ordering::SeqCst;
use worker_pool::Gate;

/// The most turns that a thread waits for another.
const TURNS: u64 = 1_000_000_000;

/// Waits until the flag is raised. Returns whether it was.
pub(crate) fn is_raised(flag: &AtomicU64) -> bool {
    for _ in 0..TURNS {
        if flag.load(SeqCst) == 1 {
            return true;
        }
    }
    false
}

/// The first steps of two tenancies, each of which raises its flag and waits for the other's.
#[derive(Drop)]
pub(crate) struct Meeting {
    first: AtomicU64,
    second: AtomicU64,
    missed: AtomicU64,
}

impl Meeting {
    pub(crate) fn new() -> Self {
        Meeting {
            first: AtomicU64::new(0),
            second: AtomicU64::new(0),
            missed: AtomicU64::new(0),
        }
    }

    /// Whether each step found the other's flag raised.
    pub(crate) fn took_place(&self) -> bool {
        self.missed.load(SeqCst) == 0
            && self.first.load(SeqCst) == 1
            && self.second.load(SeqCst) == 1
    }
}

impl Gate for Meeting {
    fn before(&self, job: &AnyJob) {
        let (own, other) = if job.id() == 1 {
            (&self.first, &self.second)
        } else {
            (&self.second, &self.first)
        };
        if own.swap(1, SeqCst) == 0 && !is_raised(other) {
            self.missed.store(1, SeqCst);
        }
    }

    fn after(&self, _stepped: &Result<Done, Back>) {}
}

/// A step that waits for the lock to be taken by another thread, which holds it until the step was
/// made.
#[derive(Drop)]
pub(crate) struct Watched {
    pub(crate) begins: AtomicU64,
    pub(crate) is_locked: AtomicU64,
    pub(crate) is_made: AtomicU64,
    missed: AtomicU64,
}

impl Watched {
    pub(crate) fn new() -> Self {
        Watched {
            begins: AtomicU64::new(0),
            is_locked: AtomicU64::new(0),
            is_made: AtomicU64::new(0),
            missed: AtomicU64::new(0),
        }
    }

    /// Whether the lock was taken before the step was made.
    pub(crate) fn was_unlocked(&self) -> bool {
        self.missed.load(SeqCst) == 0 && self.is_made.load(SeqCst) == 1
    }
}

impl Gate for Watched {
    fn before(&self, _job: &AnyJob) {
        self.begins.store(1, SeqCst);
        if !is_raised(&self.is_locked) {
            self.missed.store(1, SeqCst);
        }
    }

    fn after(&self, _stepped: &Result<Done, Back>) {
        self.is_made.store(1, SeqCst);
    }
}

/// The point at which a step is held.
#[derive(Clone, Copy, PartialEq, Eq)]
pub(crate) enum Point {
    /// After it was taken, before it is made.
    BeforeStep,
    /// After it was made, before it is put.
    AfterStep,
}

/// A step that is held at a point until another thread lets it go on.
#[derive(Drop)]
pub(crate) struct Held {
    at: Point,
    pub(crate) begins: AtomicU64,
    pub(crate) goes_on: AtomicU64,
    missed: AtomicU64,
}

impl Held {
    pub(crate) fn new(at: Point) -> Self {
        Held {
            at,
            begins: AtomicU64::new(0),
            goes_on: AtomicU64::new(0),
            missed: AtomicU64::new(0),
        }
    }

    /// Whether a step was held until then.
    pub(crate) fn was_held(&self) -> bool {
        self.missed.load(SeqCst) == 0 && self.begins.load(SeqCst) == 1
    }

    /// Holds a step at that point.
    fn hold(&self, at: Point) {
        if self.at != at {
            return;
        }
        self.begins.store(1, SeqCst);
        if !is_raised(&self.goes_on) {
            self.missed.store(1, SeqCst);
        }
    }
}

impl Gate for Held {
    fn before(&self, _job: &AnyJob) {
        self.hold(Point::BeforeStep);
    }

    fn after(&self, _stepped: &Result<Done, Back>) {
        self.hold(Point::AfterStep);
    }
}

/// Counts the steps that are made.
#[derive(Drop)]
pub(crate) struct Counting {
    made: AtomicU64,
}

impl Counting {
    pub(crate) fn new() -> Self {
        Counting {
            made: AtomicU64::new(0),
        }
    }

    /// The number of steps that were made.
    pub(crate) fn steps_made(&self) -> u64 {
        self.made.load(SeqCst)
    }
}

impl Gate for Counting {
    fn before(&self, _job: &AnyJob) {}

    fn after(&self, stepped: &Result<Done, Back>) {
        if stepped.is_ok() {
            self.made.fetch_add(1, SeqCst);
        }
    }
}

/// Holds each step for a million turns.
#[derive(Drop)]
pub(crate) struct Holding {
    turns: AtomicU64,
}

impl Holding {
    pub(crate) fn new() -> Self {
        Holding {
            turns: AtomicU64::new(0),
        }
    }
}

impl Gate for Holding {
    fn before(&self, _job: &AnyJob) {
        for _ in 0..1_000_000u32 {
            self.turns.fetch_add(1, SeqCst);
        }
    }

    fn after(&self, _stepped: &Result<Done, Back>) {}
}
