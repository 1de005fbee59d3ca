//! The track of metadata events.
ghost use Rattle.std.specs.Prelude.{◌≡◌, [], Some, None, option_copied, IfOk, OnOk, OnErr};
ghost use Rattle.span_event.specs.declared.event.Phase.TheVariants.{Meta};
ghost use Rattle.span_keyed_tracks.specs.{Event, Instant, IsGood, Gives, Fault.{Answers, TakesNoMemory}, Instants.{instant_rows, instant_rows_of, instants_of}, Meta.{HasLabels, HasMetaRoom, HasName, HasSortIndex, MetaStandsFor, TakesMeta, TakesSetting, setting_of}, MetaKept.keyed_setting};

mod instants;
mod named;
mod reaches;
mod setting;

use crate::fault::TrackFault;
use crate::key_change::change_at;
pub use instants::InstantRow;
use instants::Instants;
use named::Named;
pub use setting::names_thread;
use setting::{Holder, Setting, setting_of};
use span_event::{Event, Reach, Text, Thread};
use std::alloc::{AllocError, Global};
use std::collections::BTreeMap;
use std::marker::Model;

/// What metadata events set of a process.
#[derive(Clone, Copy, Debug)]
pub struct ProcessNames<'a> {
    pub name: Option<&'a Text>,
    pub labels: Option<&'a Text>,
    pub sort_index: Option<i64>,
}

/// What metadata events set of a thread.
#[derive(Clone, Copy, Debug)]
pub struct ThreadNames<'a> {
    pub name: Option<&'a Text>,
    pub sort_index: Option<i64>,
}

/// The names of all processes and threads, and the instants.
#[derive(Drop)]
pub struct MetaTrack {
    alloc: Global,
    names: BTreeMap<Holder, Named>,
    instants: Instants,
}

impl Model for MetaTrack {
    ghost use Rattle.span_keyed_tracks.specs.Meta.{MetaKept};

    ghost Value = { MetaKept };

    ghost view = { λ t. record { names = t.names.entries; instants = t.instants } };
}

impl MetaTrack {
    /// The track of no events. Takes no memory.
    pub fn new(alloc: Global) -> MetaTrack
        ensures { MetaStandsFor result [] }
    {
        MetaTrack {
            alloc,
            names: BTreeMap::new(alloc),
            instants: Instants::new(alloc),
        }
    }

    /// A metadata event. One without effect sets nothing and takes no memory. Only want of memory refuses it.
    pub fn name_event(&mut self, event: &Event) -> Result<(), TrackFault>
        requires good { IsGood event.now }
        requires phase { event.now.phase ≡ Meta }
        ensures refusal { Answers result None }
        ensures stands { OnOk result (TakesMeta self.old self.new event.now) }
        ensures err { OnErr result (self.new ≡ self.old) }
        ensures memory { setting_of event.now ≡ None → TakesNoMemory result }
    {
        let Ok(set) = setting_of(self.alloc, event) else {
            return Err(TrackFault::Memory);
        };
        match set {
            Some((holder, setting)) => self.set(holder, setting),
            None => Ok(()),
        }
    }

    /// An instant. Only want of memory refuses it.
    pub fn instant(&mut self, event: &Event) -> Result<(), TrackFault>
        requires good { IsGood event.now }
        requires phase { event.now.phase ≡ Instant }
        requires room { HasMetaRoom self.old }
        ensures refusal { Answers result None }
        ensures stands { OnOk result (TakesMeta self.old self.new event.now) }
        ensures err { OnErr result (self.new ≡ self.old) }
    {
        let Some(reach) = event.reach else {
            unreachable!();
        };
        let thread = Thread::of(event);
        self.instants.add(self.alloc, thread, &event.name, reach)
    }

    /// What the last metadata events set of the process. Takes no memory.
    pub fn process_of(&self, pid: i64) -> ProcessNames<'_>
        ensures name { HasName self.now (pid, None) (option_copied result.name) }
        ensures labels { HasLabels self.now (pid, None) (option_copied result.labels) }
        ensures sort_index { HasSortIndex self.now (pid, None) result.sort_index }
    {
        match self.names.get(&(pid, None)) {
            Some(named) => ProcessNames {
                name: named.name(),
                labels: named.labels(),
                sort_index: named.sort_index(),
            },
            None => ProcessNames {
                name: None,
                labels: None,
                sort_index: None,
            },
        }
    }

    /// What the last metadata events set of the thread. Takes no memory.
    pub fn thread_of(&self, pid: i64, tid: i64) -> ThreadNames<'_>
        ensures name { HasName self.now (pid, Some tid) (option_copied result.name) }
        ensures sort_index { HasSortIndex self.now (pid, Some tid) result.sort_index }
    {
        match self.names.get(&(pid, Some(tid))) {
            Some(named) => ThreadNames {
                name: named.name(),
                sort_index: named.sort_index(),
            },
            None => ThreadNames {
                name: None,
                sort_index: None,
            },
        }
    }

    /// How many instants there are of the thread, the name and the reach. Takes no memory.
    pub fn instants_of(&self, pid: i64, tid: i64, name: &Text, reach: Reach) -> u32
        ensures { Gives MetaStandsFor self.now
            (λ es. instants_of es (record { pid = pid; tid = tid }) name.now reach) result }
    {
        self.instants.of(Thread { pid, tid }, name, reach)
    }

    /// The row of each thread, name and reach that has an instant, in ascending order, the wider reach first.
    pub fn instant_rows(&self, alloc: Global) -> Result<Vec<InstantRow>, AllocError>
        ensures { IfOk result (λ rows. Gives MetaStandsFor self.now instant_rows rows.items) }
    {
        self.instants.rows(alloc)
    }

    /// The rows of one thread: of each name and reach that has an instant on it, in ascending order, the wider reach first.
    pub fn instant_rows_of(
        &self,
        alloc: Global,
        thread: Thread,
    ) -> Result<Vec<InstantRow>, AllocError>
        ensures { IfOk result (λ rows.
            Gives MetaStandsFor self.now (instant_rows_of thread) rows.items) }
    {
        self.instants.rows_of(alloc, thread)
    }

    fn set(&mut self, holder: Holder, setting: Setting) -> Result<(), TrackFault>
        ensures refusal { Answers result None }
        ensures instants { self.new.instants ≡ self.old.instants }
        ensures takes { OnOk result
            (TakesSetting self.old.names self.new.names (keyed_setting (holder, setting))) }
        ensures err { OnErr result (self.new ≡ self.old) }
    {
        let none = Named::new();
        change_at(self.alloc, &mut self.names, &holder, none, |named| {
            named.set(setting);
            Ok(())
        })
    }
}
