//! What comes to the thread that serves.
ghost use Rattle.std.specs.Prelude.{◌≡◌};
ghost use Rattle.live_threads.specs.Prelude.{SameProducer, sent};

use crate::letters::{InputEnd, StepLetter};
use rtrb::Producer;
use std::alloc::{AllocGlobal, Global};
use std::mem;
use std::sync::{Condvar, Mutex, Wait};

/// What has come and was not taken yet.
#[derive(Drop)]
struct Letters {
    steps: Vec<StepLetter>,
    /// The reader has put lines into its ring.
    has_lines: bool,
    end: Option<InputEnd>,
    /// The log has been served, and lines of the input are taken.
    is_ready: bool,
    /// The service has ended, and nothing more is taken.
    is_over: bool,
}

impl Letters {
    fn has_news(&self) -> bool {
        self.has_lines || !self.steps.is_empty() || self.end.is_some()
    }
}

/// What came since the last look.
#[derive(Drop)]
pub(crate) struct News {
    pub(crate) steps: Vec<StepLetter>,
    /// How the input ended, if it did since.
    pub(crate) end: Option<InputEnd>,
}

/// What comes to the thread that serves.
pub(crate) struct Mailbox {
    letters: Mutex<Letters>,
    /// Notified when something came.
    news: Condvar,
    /// Notified when the log has been served, when lines were taken, or the service is over.
    room: Condvar,
}

impl Drop for Mailbox {
    fn drop(self) {
        let Mailbox {
            letters,
            news: _,
            room: _,
        } = self;
        drop(letters);
    }
}

impl Mailbox {
    /// An empty one. Takes no memory.
    pub(crate) fn new(alloc: Global) -> Self {
        Mailbox {
            letters: Mutex::new(Letters {
                steps: Vec::new(alloc),
                has_lines: false,
                end: None,
                is_ready: false,
                is_over: false,
            }),
            news: Condvar::new(),
            room: Condvar::new(),
        }
    }

    /// Takes what came. If nothing did, waits for it if `waits`.
    pub(crate) fn take_news<R: Wait + AllocGlobal>(&self, rt: &R, waits: bool) -> News {
        let mut letters = self.letters.lock(rt);
        if waits {
            letters = self
                .news
                .wait_while(rt, letters, |letters| !letters.has_news());
        }
        letters.has_lines = false;
        News {
            steps: mem::replace(&mut letters.steps, Vec::new(rt.alloc())),
            end: letters.end.take(),
        }
    }

    /// Takes what workers did. Waits for it.
    pub(crate) fn take_steps<R: Wait + AllocGlobal>(&self, rt: &R) -> Vec<StepLetter> {
        let letters = self.letters.lock(rt);
        let mut letters = self
            .news
            .wait_while(rt, letters, |letters| letters.steps.is_empty());
        mem::replace(&mut letters.steps, Vec::new(rt.alloc()))
    }

    /// Puts what a worker did. Returns it if memory runs out.
    pub(crate) fn put<R: Wait>(&self, rt: &R, letter: StepLetter) -> Result<(), StepLetter> {
        let put = self.letters.lock(rt).steps.push(letter);
        match put {
            Ok(()) => {
                self.news.notify_one();
                Ok(())
            }
            Err(failed) => Err(failed.value),
        }
    }

    /// Says that lines have come. Returns whether the service goes on.
    pub(crate) fn note_lines<R: Wait>(&self, rt: &R) -> bool {
        let mut letters = self.letters.lock(rt);
        letters.has_lines = true;
        let goes_on = !letters.is_over;
        drop(letters);
        self.news.notify_one();
        goes_on
    }

    /// Says that the log has been served.
    pub(crate) fn note_ready<R: Wait>(&self, rt: &R) {
        self.letters.lock(rt).is_ready = true;
        self.room.notify_one();
    }

    /// Waits until the log has been served. Returns whether the service goes on.
    pub(crate) fn await_ready<R: Wait>(&self, rt: &R) -> bool {
        let letters = self.letters.lock(rt);
        let letters = self.room.wait_while(rt, letters, |letters| {
            !letters.is_ready && !letters.is_over
        });
        !letters.is_over
    }

    /// Says that lines were taken.
    pub(crate) fn note_room<R: Wait>(&self, rt: &R) {
        drop(self.letters.lock(rt));
        self.room.notify_one();
    }

    /// Waits until a ring has room for lines. Returns whether the service goes on.
    pub(crate) fn await_room<R: Wait>(&self, rt: &R, lines: &mut Producer<Vec<u8>>) -> bool
        ensures ring { SameProducer lines.old lines.new }
        ensures same { sent lines.new ≡ sent lines.old }
    {
        let mut letters = self.letters.lock(rt);
        for _ in rt.forever() {
            if letters.is_over {
                return false;
            }
            if !lines.is_full() {
                return true;
            }
            letters = self.room.wait(rt, letters);
        }
        unreachable!()
    }

    /// Says how the input ended.
    pub(crate) fn note_end<R: Wait>(&self, rt: &R, end: InputEnd) {
        self.letters.lock(rt).end = Some(end);
        self.news.notify_one();
    }

    /// Says that the service is over.
    pub(crate) fn close<R: Wait>(&self, rt: &R) {
        self.letters.lock(rt).is_over = true;
        self.room.notify_one();
    }
}
