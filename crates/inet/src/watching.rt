use in_program::{Progress, Watch};
use std::alloc::Global;
use std::io::Write;
use std::time::{Clock, Duration, Instant};

/// The number of interactions between two tests whether a second is over.
const SHOWN_TURN: u64 = 1 << 20;

/// .. and, for figures, between two counts of the cells in use.
const COUNTED_TURN: u64 = 1 << 10;

/// The characters that take back a line of a terminal.
const TAKEN_BACK: &str = "\r\x1b[K";

/// Watches a run, for progress at a terminal or for figures.
#[derive(Drop)]
pub struct Watching<'a, T, E> {
    clock: &'a T,
    alloc: Global,
    errors: E,
    /// Whether it shows the number of interactions each second.
    shows: bool,
    /// Whether figures are requested.
    counts: bool,
    /// The times at which the program was started, its run began, a line was shown, and the run stopped.
    started: Option<Instant>,
    begun: Option<Instant>,
    shown: Option<Instant>,
    stopped: Option<Instant>,
    is_shown: bool,
    /// The progress seen, with the most cells that were in use.
    seen: Option<Progress>,
}

/// The larger numbers of cells in use.
fn with_most(seen: Option<Progress>, progress: Progress) -> Progress {
    let mut most = progress;
    if let Some(seen) = seen {
        most.used = progress.used.or_more(seen.used);
    }
    most
}

/// The time between the two, if both are known.
fn between(from: Option<Instant>, to: Option<Instant>) -> Option<Duration> {
    Some(to?.duration_since(from?))
}

impl<'a, T: Clock, E: Write> Watching<'a, T, E> {
    /// A watch that begins now.
    pub fn new(
        clock: &'a T,
        alloc: Global,
        errors: E,
        shows: bool,
        counts: bool,
    ) -> Watching<'a, T, E> {
        Watching {
            clock,
            alloc,
            errors,
            shows,
            counts,
            started: Instant::now(clock).ok(),
            begun: None,
            shown: None,
            stopped: None,
            is_shown: false,
            seen: None,
        }
    }

    /// Writes a line to standard error; a failure changes nothing.
    fn say(&mut self, line: &str) {
        let _ = self.errors.write_all(line.as_bytes());
    }

    /// Shows the number of interactions, if a second is over.
    fn show(&mut self, interactions: u64) {
        let now = Instant::now(self.clock).ok();
        let is_due = match between(self.shown, now) {
            Some(time) => time >= Duration::from_secs(1),
            None => false,
        };
        if is_due {
            self.shown = now;
            if let Ok(line) = format!(in self.alloc;
                "{TAKEN_BACK}inet: {interactions} interactions"
            ) {
                self.is_shown = true;
                self.say(line.as_str());
            }
        }
    }

    /// Writes the time of this part of the program's work.
    fn tell_time(&mut self, what: &str, time: Duration) {
        let seconds = time.as_secs();
        let thousandths = time.subsec_millis();
        if let Ok(line) = format!(in self.alloc; "time to {what}: {seconds}.{thousandths:03} s\n") {
            self.say(line.as_str());
        }
    }

    /// Writes the interactions a second.
    fn tell_rate(&mut self, interactions: u64, time: Duration) {
        let micros = time.as_micros();
        if micros == 0 {
            return;
        }
        let rate = u128::from(interactions) * 1_000_000 / micros;
        if let Ok(line) = format!(in self.alloc; "interactions a second: {rate}\n") {
            self.say(line.as_str());
        }
    }

    /// Writes the numbers of cells, threads and phases of a run.
    fn tell_seen(&mut self, seen: Progress) {
        let Progress {
            used,
            threads,
            phases,
            ..
        } = seen;
        let (small, large, wide) = (used.small, used.large, used.wide);
        if let Ok(lines) = format!(in self.alloc;
            "most cells in use: {small} small, {large} large, {wide} wide\nthreads: {threads}\nphases: {phases}\n"
        ) {
            self.say(lines.as_str());
        }
    }

    /// Writes the figures, if they are requested and there was a run.
    pub fn tell(&mut self) {
        if !self.counts {
            return;
        }
        if let Some(time) = between(self.started, self.begun) {
            self.tell_time("check", time);
        }
        let run = between(self.begun, self.stopped);
        if let Some(time) = run {
            self.tell_time("run", time);
        }
        if let Some(seen) = self.seen {
            if let Some(time) = run {
                self.tell_rate(seen.interactions, time);
            }
            self.tell_seen(seen);
        }
    }
}

impl<'a, T: Clock, E: Write> Watch for Watching<'a, T, E> {
    fn begin(&mut self) {
        self.begun = Instant::now(self.clock).ok();
        self.shown = self.begun;
    }

    fn turn(&self) -> u64 {
        if self.counts {
            COUNTED_TURN
        } else if self.shows {
            SHOWN_TURN
        } else {
            u64::MAX
        }
    }

    fn look(&mut self, progress: Progress) {
        self.seen = Some(with_most(self.seen, progress));
        if self.shows {
            self.show(progress.interactions);
        }
    }

    fn end(&mut self, progress: Progress) {
        self.stopped = Instant::now(self.clock).ok();
        self.seen = Some(with_most(self.seen, progress));
        if self.is_shown {
            self.is_shown = false;
            self.say(TAKEN_BACK);
        }
    }
}
