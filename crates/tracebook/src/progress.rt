//! A line on a terminal that says what a run is doing.

use span_tasks::Watcher;
use std::io;
use std::io::{IsTerminal, Write};
use std::sync::atomic::{AtomicU64, Ordering};
use std::time::Instant;

// Said before standard input is read from a terminal.
const AT_TERMINAL: &str = "hint: reading from the terminal; --help shows how to name a file\n";

const MIB: u64 = 1_048_576;

// Less than this is read and reported at once, so nothing is shown of it.
const LARGE: u64 = 8 * MIB;

const PAUSE_MILLIS: u64 = 250;

/// A line on standard error, which is written anew at most four times a second, by whichever thread reads. Nothing is written where
/// that is no terminal.
#[derive(Drop)]
pub(crate) struct Progress<'a> {
    rt: &'a HostRuntime,
    is_shown: bool,
    takes_hints: bool,
    begun: Option<Instant>,
    // How many milliseconds after that the line was written last.
    last: AtomicU64,
    // How many files are opened, and how many there are where each is a run of its own or a table, else 0.
    opened: AtomicU64,
    files: AtomicU64,
    // How many bytes of the latest file are read, and how many it has, where that is known.
    read: AtomicU64,
    size: AtomicU64,
    // How many bytes of all files are read.
    all: AtomicU64,
}

impl<'a> Progress<'a> {
    pub(crate) fn new(rt: &'a HostRuntime, is_shown: bool, takes_hints: bool) -> Progress<'a> {
        Progress {
            rt,
            is_shown,
            takes_hints,
            begun: Instant::now(rt).ok(),
            last: AtomicU64::new(0),
            opened: AtomicU64::new(0),
            files: AtomicU64::new(0),
            read: AtomicU64::new(0),
            size: AtomicU64::new(0),
            all: AtomicU64::new(0),
        }
    }

    // How many mebibytes of the latest file are read.
    fn show_file(&self, read: u64) {
        let file = self.opened.load(Ordering::SeqCst);
        let size = self.size.load(Ordering::SeqCst) / MIB;
        let _ = match size {
            0 => eprint!(self.rt; "\r\x1b[Ktracebook: file {file}: {read} MiB read"),
            _ => eprint!(self.rt; "\r\x1b[Ktracebook: file {file}: {read} of {size} MiB read"),
        };
    }

    // How many files of all are read, how quickly, and how long the others will take, if they are like these.
    fn show_files(&self, files: u64, read: u64, millis: u64) {
        let done = self
            .opened
            .load(Ordering::SeqCst)
            .saturating_sub(1)
            .min(files);
        let rate = read.saturating_mul(1000) / millis.max(1);
        let left = millis.saturating_mul(files - done) / done.max(1) / 1000;
        let _ = eprint!(self.rt;
            "\r\x1b[Ktracebook: {done} of {files} files, {rate} MiB/s, {left} s left"
        );
    }

    // How many milliseconds after the beginning it is, where the line is to be written anew, and by this thread.
    fn due(&self) -> Option<u64> {
        let now = Instant::now(self.rt).ok()?;
        let millis = now.duration_since(self.begun?).as_millis();
        let millis = u64::try_from(millis).unwrap_or(u64::MAX);
        let last = self.last.load(Ordering::SeqCst);
        if last != 0 && millis < last.saturating_add(PAUSE_MILLIS) {
            return None;
        }
        let taken = self
            .last
            .compare_exchange(last, millis.max(1), Ordering::SeqCst, Ordering::SeqCst);
        if taken.is_ok() { Some(millis) } else { None }
    }
}

impl<'a> Watcher for Progress<'a> {
    fn begin_apart(&self, files: u64) {
        self.files.store(files, Ordering::SeqCst);
    }

    fn open_standard(&self) {
        if self.takes_hints && self.rt.stdin().is_terminal() {
            let _ = eprint!(self.rt; "{AT_TERMINAL}");
        }
        self.open(0);
    }

    fn open(&self, size: u64) {
        self.opened.fetch_add(1, Ordering::SeqCst);
        self.read.store(0, Ordering::SeqCst);
        self.size.store(size, Ordering::SeqCst);
    }

    fn advance(&self, count: u64) {
        let read = self.read.fetch_add(count, Ordering::SeqCst);
        let all = self.all.fetch_add(count, Ordering::SeqCst);
        if !self.is_shown || all.saturating_add(count) < LARGE {
            return;
        }
        let Some(millis) = self.due() else {
            return;
        };
        match self.files.load(Ordering::SeqCst) {
            0 => self.show_file(read.saturating_add(count) / MIB),
            files => self.show_files(files, all / MIB, millis),
        }
    }

    fn end(&self) {
        let all = self.all.load(Ordering::SeqCst);
        if self.is_shown && all >= LARGE && self.files.load(Ordering::SeqCst) == 0 {
            let all = all / MIB;
            let _ = eprint!(self.rt; "\r\x1b[Ktracebook: {all} MiB read, collecting");
        }
    }
}

/// A writer that clears the line before its first bytes.
#[derive(Drop)]
pub(crate) struct Cleared<'a, W: Write> {
    rt: &'a HostRuntime,
    inner: W,
    // The line may be there.
    is_shown: bool,
}

impl<'a, W: Write> Cleared<'a, W> {
    pub(crate) fn new(rt: &'a HostRuntime, inner: W, is_shown: bool) -> Cleared<'a, W> {
        Cleared {
            rt,
            inner,
            is_shown,
        }
    }
}

impl<'a, W: Write> Write for Cleared<'a, W> {
    ghost contents = { λ c. W.contents c.inner };

    fn write(&mut self, bytes: &[u8]) -> io::Result<usize> {
        if self.is_shown {
            let _ = eprint!(self.rt; "\r\x1b[K");
            self.is_shown = false;
        }
        self.inner.write(bytes)
    }

    fn flush(&mut self) -> io::Result<()> {
        self.inner.flush()
    }
}
