//! The counts of the instants of one thread and name.
ghost use Rattle.std.specs.Prelude.{◌≡◌, ◌<◌, ◌^◌, ◌-◌, [], ◌++◌, OnOk};
ghost use Rattle.span_keyed_tracks.specs.{Instants.{counts_of, instant_row, rows_of_name}, InstantsKept.{count_at, with_reach}};

use super::instants::InstantRow;
use span_event::{Reach, Text, Thread};
use std::alloc::{AllocError, Global};
use std::marker::Model;

#[derive(Drop)]
pub(crate) struct Reaches {
    global: u32,
    process: u32,
    thread: u32,
}

impl Model for Reaches {
    ghost use Rattle.span_keyed_tracks.specs.Instants.{ReachCounts};

    ghost Value = { ReachCounts };

    ghost view = { λ r. record { global = r.global; process = r.process; thread = r.thread } };
}

impl Reaches {
    pub(crate) fn new() -> Reaches
        ensures { result ≡ counts_of [] }
    {
        Reaches {
            global: 0,
            process: 0,
            thread: 0,
        }
    }

    pub(crate) fn copy(&self) -> Reaches
        ensures { result ≡ self.now }
    {
        Reaches {
            global: self.global,
            process: self.process,
            thread: self.thread,
        }
    }

    pub(crate) fn add(&mut self, reach: Reach)
        requires { count_at reach self.old < 2 ^ 32 - 1 }
        ensures { self.new ≡ with_reach self.old reach }
    {
        match reach {
            Reach::Global => self.global += 1,
            Reach::Process => self.process += 1,
            Reach::Thread => self.thread += 1,
        }
    }

    pub(crate) fn of(&self, reach: Reach) -> u32
        ensures { result ≡ count_at reach self.now }
    {
        match reach {
            Reach::Global => self.global,
            Reach::Process => self.process,
            Reach::Thread => self.thread,
        }
    }

    pub(crate) fn push_rows(
        &self,
        alloc: Global,
        rows: &mut Vec<InstantRow>,
        thread: Thread,
        name: &Text,
    ) -> Result<(), AllocError>
        ensures { OnOk result (rows.new.items
            ≡ rows.old.items ++ rows_of_name thread (name.now, self.now)) }
    {
        push_row(alloc, rows, thread, name, Reach::Global, self.global)?;
        push_row(alloc, rows, thread, name, Reach::Process, self.process)?;
        push_row(alloc, rows, thread, name, Reach::Thread, self.thread)
    }
}

// The row of the instants of one reach, where there are any.
fn push_row(
    alloc: Global,
    rows: &mut Vec<InstantRow>,
    thread: Thread,
    name: &Text,
    reach: Reach,
    count: u32,
) -> Result<(), AllocError>
    ensures { OnOk result (rows.new.items
        ≡ rows.old.items ++ instant_row thread name.now reach count) }
{
    if count == 0 {
        return Ok(());
    }
    if rows.is_empty() {
        // A list of one, as most threads have, has no more room.
        rows.reserve_exact(1)?;
    }
    let name = name.try_clone(alloc)?;
    rows.push(InstantRow {
        pid: thread.pid,
        tid: thread.tid,
        name,
        reach,
        count,
    })?;
    Ok(())
}
