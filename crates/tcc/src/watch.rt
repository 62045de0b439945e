//! What a run of `explain --large`, `watch`, `survey --large` or `check --large` is doing, on one line of the terminal that shows the errors.

use std::io::{self, Write};
use std::sync::{Condvar, Mutex, Wait};
use std::time::{Clock, Duration, Instant};
use tcc_base::Progress;
use tcc_run::{Gate, RunStage, Watcher};

/// For so many seconds of a run nothing is shown.
const QUIET_SECONDS: u64 = 2;

/// After so many milliseconds the line is shown anew.
const TURN_MILLISECONDS: u64 = 250;

/// As wide as the line is at most, and then back to its begin.
const BLANK: &[u8] = b"                                        \r";

/// What a run is doing, and how far it is.
#[derive(Clone, Copy)]
struct Doing {
    words: &'static str,
    /// How many bytes were read, or parts of the work done, and how many there are; 0 where nobody knows.
    done: u64,
    all: u64,
}

/// What the line has.
#[derive(Drop)]
struct StatusLine {
    errors: io::Stderr,
    /// What is shown once some time has passed; none while other things may be written.
    doing: Option<Doing>,
    is_shown: bool,
    has_ended: bool,
}

/// The words for what is being done.
fn words(stage: RunStage) -> &'static str {
    match stage {
        RunStage::Reading => "reading records",
        RunStage::Deciding => "deciding",
        RunStage::Slicing => "cutting a slice",
    }
}

/// How many hundredths of all are done, where it is known how much that is.
fn percent(done: u64, all: u64) -> Option<u64> {
    done.min(all).checked_mul(100)?.checked_div(all)
}

impl StatusLine {
    /// Shows what is being done, how far it is, if that is known, and for how many seconds the run has lasted. What is written next takes its place.
    fn show(&mut self, seconds: u64) {
        if let Some(Doing { words, done, all }) = self.doing {
            // What standard error takes changes nothing.
            let _ = match percent(done, all) {
                Some(far) => write!(self.errors, "{words}, {far} %, {seconds} s\r"),
                None => write!(self.errors, "{words}, {seconds} s\r"),
            };
            self.is_shown = true;
        }
    }

    /// Clears the line, if something is on it.
    fn clear(&mut self) {
        if self.is_shown {
            let _ = self.errors.write_all(BLANK);
            self.is_shown = false;
        }
    }
}

/// The watcher of a run, which one thread tells what it is doing and another one shows it.
#[derive(Drop)]
pub struct ShownProgress<'a, R: Wait + Clock> {
    rt: &'a R,
    /// None where the clock can't be read: then nothing is shown.
    start: Option<Instant>,
    line: Mutex<StatusLine>,
    ended: Condvar,
}

impl<'a, R: Wait + Clock> ShownProgress<'a, R> {
    /// That of a run which begins now.
    pub fn new(rt: &'a R, errors: io::Stderr) -> ShownProgress<'a, R> {
        ShownProgress {
            rt,
            start: Instant::now(rt).ok(),
            line: Mutex::new(StatusLine {
                errors,
                doing: None,
                is_shown: false,
                has_ended: false,
            }),
            ended: Condvar::new(),
        }
    }

    /// For how many seconds the run has lasted.
    fn seconds(&self) -> Option<u64> {
        Some(self.start?.elapsed(self.rt).ok()?.as_secs())
    }

    /// The run does this from now on, and reads this many bytes for it, if that is known; else 0.
    pub fn now(&self, words: &'static str, all: u64) {
        let mut line = self.line.lock(self.rt);
        line.clear();
        line.doing = Some(Doing {
            words,
            done: 0,
            all,
        });
    }

    /// This many bytes more were read.
    pub fn read(&self, count: usize) {
        let mut line = self.line.lock(self.rt);
        if let Some(doing) = &mut line.doing {
            doing.done = doing.done.saturating_add(count as u64);
        }
    }

    /// Other things may be written from now on.
    pub fn pause(&self) {
        let mut line = self.line.lock(self.rt);
        line.doing = None;
        line.clear();
    }

    /// Shows what the run is doing, turn by turn, until it has ended.
    pub fn show(&self) {
        let turn = Duration::from_millis(TURN_MILLISECONDS);
        let mut line = self.line.lock(self.rt);
        for _ in self.rt.forever() {
            if line.has_ended {
                return;
            }
            match self.seconds() {
                Some(seconds) if seconds >= QUIET_SECONDS => line.show(seconds),
                _ => {}
            }
            line = self.ended.wait_timeout(self.rt, line, turn).0;
        }
    }

    /// The run has ended.
    pub fn finish(&self) {
        let mut line = self.line.lock(self.rt);
        line.clear();
        line.has_ended = true;
        self.ended.notify_all();
    }
}

impl<R: Wait + Clock + Sync> Gate for ShownProgress<'_, R> {
    fn enter(&self, _worker: u32, _start: u32) {}
}

impl<R: Wait + Clock + Sync> Watcher for ShownProgress<'_, R> {
    fn begin(&self, stage: RunStage) {
        self.now(words(stage), 0);
    }

    fn end(&self) {
        self.pause();
    }
}

impl<R: Wait + Clock + Sync> Progress for ShownProgress<'_, R> {
    fn done(&self, count: usize, all: usize) {
        let mut line = self.line.lock(self.rt);
        if let Some(doing) = &mut line.doing {
            doing.done = count as u64;
            doing.all = all as u64;
        }
    }
}
