//! An output that takes so many bytes, and then fails.

use std::alloc::Global;
use std::io;
use std::io::{ErrorKind, Write};

/// How an output fails that has taken all for which it has room.
#[derive(Clone, Copy, Debug, PartialEq, Eq)]
pub(super) enum End {
    Broken,
    Interrupted,
    TakesNothing,
}

/// Keeps what it took, and counts the calls.
#[derive(Drop)]
pub(super) struct Output {
    pub taken: Vec<u8>,
    pub writes: u64,
    pub flushes: u64,
    room: usize,
    end: End,
    can_flush: bool,
}

impl Output {
    /// An output that takes so many bytes, fails so at the next write, and can be flushed or not.
    pub(super) fn new(alloc: Global, room: usize, end: End, can_flush: bool) -> Output {
        Output {
            taken: Vec::new(alloc),
            writes: 0,
            flushes: 0,
            room,
            end,
            can_flush,
        }
    }

    /// An output that takes so many bytes, and is broken then.
    pub(super) fn of_room(alloc: Global, room: usize) -> Output {
        Output::new(alloc, room, End::Broken, true)
    }
}

impl Write for Output {
    fn write(&mut self, bytes: &[u8]) -> io::Result<usize> {
        self.writes = self.writes.wrapping_add(1);
        let count = bytes.len().min(self.room);
        if count == 0 {
            return match self.end {
                End::Broken => Err(io::Error::from(ErrorKind::BrokenPipe)),
                End::Interrupted => Err(io::Error::from(ErrorKind::Interrupted)),
                End::TakesNothing => Ok(0),
            };
        }
        self.taken.extend_from_slice(&bytes[..count])?;
        self.room -= count;
        Ok(count)
    }

    fn flush(&mut self) -> io::Result<()> {
        self.flushes = self.flushes.wrapping_add(1);
        if self.can_flush {
            Ok(())
        } else {
            Err(io::Error::from(ErrorKind::BrokenPipe))
        }
    }
}
