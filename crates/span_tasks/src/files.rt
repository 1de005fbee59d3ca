//! The real files, folders and standard input.
ghost use Rattle.std.specs.Prelude.{◌≤◌, IfOk, vec_len};

use crate::reading::{Extent, read_up_to, reason_of};
use crate::walk::files_below;
use span_event::Text;
use span_runs::{FolderFault, Name, Reason, Source, SourceFault};
use std::fs::{File, metadata};
use std::io;
use std::io::Read;
use std::sync::atomic::{AtomicBool, Ordering};

/// Learns what is read, as it is read, by whichever thread reads.
pub trait Watcher {
    /// So many files are read, each for itself.
    fn begin_apart(&self, _files: u64) {}

    /// Standard input is read next.
    fn open_standard(&self) {}

    /// A file is read next. It has this many bytes; 0, where that is not known.
    fn open(&self, _size: u64) {}

    /// So many bytes more are read of it.
    fn advance(&self, _count: u64) {}

    /// All files of a run are read.
    fn end(&self) {}
}

/// Nobody watches.
#[derive(Clone, Copy)]
pub struct Unwatched;

impl Watcher for Unwatched {}

/// The real files and folders, and standard input, which can be read once.
#[derive(Drop)]
pub struct Files<'a, W> {
    rt: &'a HostRuntime,
    watcher: W,
    // Standard input is read.
    is_read: AtomicBool,
}

impl<'a, W: Watcher> Source for Files<'a, W> {
    ghost use Rattle.std.specs.Prelude.{None};
    ghost use Rattle.span_tasks.specs.{unknown};

    // What files hold isn't known, nor what folders do.
    ghost bytes = { λ files name. None };

    ghost folders = { λ files ending path. unknown };

    fn files_below(&self, path: &Text, ending: &str) -> Result<Option<Vec<Text>>, FolderFault> {
        match metadata(self.rt, path.as_str()) {
            Ok(metadata) if metadata.is_dir() => {}
            _ => return Ok(None),
        }
        Ok(Some(files_below(self.rt, path, ending)?))
    }

    fn read(&self, name: &Name, most: u64) -> Result<Vec<u8>, SourceFault> {
        self.read_some(name, most, None)
    }

    fn read_begun(&self, name: &Name, most: u64, first: u8) -> Result<Vec<u8>, SourceFault> {
        self.read_some(name, most, Some(first))
    }

    fn size(&self, name: &Name) -> u64 {
        let Name::File(name) = name else {
            return 0;
        };
        match metadata(self.rt, name.as_str()) {
            Ok(metadata) => metadata.len(),
            Err(_) => 0,
        }
    }

    fn may_wait(&self, name: &Name) -> bool {
        let Name::File(path) = name else {
            return true;
        };
        match metadata(self.rt, path.as_str()) {
            Ok(metadata) => !metadata.is_file(),
            Err(_) => false,
        }
    }

    fn begin_apart(&self, files: u64) {
        self.watcher.begin_apart(files);
    }

    fn end(&self) {
        self.watcher.end();
    }
}

impl<'a, W: Watcher> Files<'a, W> {
    pub fn new(rt: &'a HostRuntime, watcher: W) -> Files<'a, W> {
        Files {
            rt,
            watcher,
            is_read: AtomicBool::new(false),
        }
    }

    // As much of what the name stands for as is wanted.
    fn read_some(&self, name: &Name, most: u64, first: Option<u8>) -> Result<Vec<u8>, SourceFault>
        ensures within { IfOk result (λ read. vec_len read ≤ most) }
    {
        let extent = Extent {
            most: most as usize,
            first,
        };
        match name {
            Name::Standard => self.read_standard(extent),
            Name::File(name) => self.read_file(name.as_str(), extent),
        }
    }

    fn read_standard(&self, extent: Extent) -> Result<Vec<u8>, SourceFault>
        ensures within { IfOk result (λ read. vec_len read ≤ extent.most) }
    {
        if self.is_read.swap(true, Ordering::SeqCst) {
            return Err(SourceFault::NotOpened(Reason::Taken));
        }
        self.watcher.open_standard();
        let mut reader = Watched {
            inner: self.rt.stdin(),
            watcher: &self.watcher,
        };
        read_up_to(self.rt.alloc(), &mut reader, 0, extent)
    }

    fn read_file(&self, name: &str, extent: Extent) -> Result<Vec<u8>, SourceFault>
        ensures within { IfOk result (λ read. vec_len read ≤ extent.most) }
    {
        let file = match File::open(self.rt, name) {
            Ok(file) => file,
            Err(error) => return Err(SourceFault::NotOpened(reason_of(&error))),
        };
        let size = match file.metadata() {
            Ok(metadata) => metadata.len(),
            Err(_) => 0,
        };
        self.watcher.open(size);
        let mut reader = Watched {
            inner: file,
            watcher: &self.watcher,
        };
        read_up_to(self.rt.alloc(), &mut reader, size as usize, extent)
    }
}

// A reader that says how many bytes come of it.
#[derive(Drop)]
struct Watched<'w, W, R: Read> {
    inner: R,
    watcher: &'w W,
}

impl<'w, W: Watcher, R: Read> Read for Watched<'w, W, R> {
    ghost remaining = { λ w. R.remaining w.inner };

    fn read(&mut self, buf: &mut [u8]) -> io::Result<usize> {
        let read = self.inner.read(buf);
        if let Ok(count) = &read {
            self.watcher.advance(*count as u64);
        }
        read
    }
}
