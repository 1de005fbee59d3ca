//! The instants of all threads.
ghost use Rattle.std.specs.Prelude.{◌≡◌, ◌∷◌, ◌++◌, [], None, IfOk, OnOk, OnErr};
ghost use Rattle.span_keyed_tracks.specs.{thread_cmp, text_cmp, Fault.Answers, Instants.{HasInstantRoom, HasNameRoom, TakesInstant, TakesName, counts_of, names_counted, rows_of_instants, rows_of_thread}, InstantsKept.count_at, Keyed.kept_at};

use super::reaches::Reaches;
use crate::fault::TrackFault;
use crate::key_change::change_at;
use span_event::{Reach, Text, Thread};
use std::alloc::{AllocError, Global};
use std::collections::BTreeMap;
use std::marker::Model;

/// How many instants there are of a thread, a name and a reach; one at least.
#[derive(Debug, Drop, PartialEq, Eq)]
pub struct InstantRow {
    pub pid: i64,
    pub tid: i64,
    pub name: Text,
    pub reach: Reach,
    pub count: u32,
}

// The instants of one thread.
#[derive(Drop)]
pub(crate) struct ThreadInstants {
    names: Counted,
}

// Most threads that have instants have them of one name, and a map has room for several.
#[derive(Drop)]
enum Counted {
    Empty,
    One(Text, Reaches),
    Many(Box<BTreeMap<Text, Reaches>>),
}

impl Model for ThreadInstants {
    ghost use Rattle.span_keyed_tracks.specs.{Instants.{NamesCounted}, InstantsKept.counted_names};

    ghost Value = { NamesCounted };

    ghost view = { λ t. counted_names t.names };
}

impl ThreadInstants {
    fn new() -> ThreadInstants
        ensures { result ≡ names_counted [] }
    {
        ThreadInstants {
            names: Counted::Empty,
        }
    }

    fn add(&mut self, alloc: Global, name: &Text, reach: Reach) -> Result<(), TrackFault>
        requires { HasNameRoom self.old }
        ensures refusal { Answers result None }
        ensures takes { OnOk result
            (TakesName self.old self.new (record { key = name.now; step = reach })) }
        ensures err { OnErr result (self.new ≡ self.old) }
    {
        match &mut self.names {
            Counted::Empty => {
                let Ok(name) = name.try_clone(alloc) else {
                    return Err(TrackFault::Memory);
                };
                let mut reaches = Reaches::new();
                reaches.add(reach);
                self.names = Counted::One(name, reaches);
                Ok(())
            }
            Counted::One(only, reaches) if &*only == name => {
                reaches.add(reach);
                Ok(())
            }
            Counted::One(only, reaches) => {
                let Ok(mut names) = map_of(alloc, only, reaches) else {
                    return Err(TrackFault::Memory);
                };
                add_to(alloc, &mut names, name, reach)?;
                self.names = Counted::Many(names);
                Ok(())
            }
            Counted::Many(names) => add_to(alloc, names, name, reach),
        }
    }

    fn of(&self, name: &Text, reach: Reach) -> u32
        ensures { result
            ≡ count_at reach (kept_at text_cmp (counts_of []) self.now name.now) }
    {
        match &self.names {
            Counted::One(only, reaches) if only == name => reaches.of(reach),
            Counted::Many(names) => match names.get(name) {
                Some(reaches) => reaches.of(reach),
                None => 0,
            },
            _ => 0,
        }
    }

    fn push_rows(
        &self,
        alloc: Global,
        rows: &mut Vec<InstantRow>,
        thread: Thread,
    ) -> Result<(), AllocError>
        ensures { OnOk result (rows.new.items
            ≡ rows.old.items ++ rows_of_thread (thread, self.now)) }
    {
        match &self.names {
            Counted::Empty => Ok(()),
            Counted::One(name, reaches) => reaches.push_rows(alloc, rows, thread, name),
            Counted::Many(names) => push_all(alloc, rows, thread, names),
        }
    }
}

fn push_all(
    alloc: Global,
    rows: &mut Vec<InstantRow>,
    thread: Thread,
    names: &BTreeMap<Text, Reaches>,
) -> Result<(), AllocError>
    ensures { OnOk result (rows.new.items
        ≡ rows.old.items ++ rows_of_thread (thread, names.now.entries)) }
{
    for (name, reaches) in names {
        reaches.push_rows(alloc, rows, thread, name)?;
    }
    Ok(())
}

// A map of one name.
fn map_of(
    alloc: Global,
    name: &Text,
    reaches: &Reaches,
) -> Result<Box<BTreeMap<Text, Reaches>>, AllocError>
    ensures { IfOk result (λ names. names.value.entries ≡ (name.now, reaches.now) ∷ []) }
{
    let mut names = BTreeMap::new(alloc);
    names.insert(name.try_clone(alloc)?, reaches.copy())?;
    let names = Box::new(alloc, names)?;
    Ok(names)
}

fn add_to(
    alloc: Global,
    names: &mut BTreeMap<Text, Reaches>,
    name: &Text,
    reach: Reach,
) -> Result<(), TrackFault>
    requires { HasNameRoom names.old.entries }
    ensures refusal { Answers result None }
    ensures takes { OnOk result
        (TakesName names.old.entries names.new.entries (record { key = name.now; step = reach })) }
    ensures err { OnErr result (names.new.entries ≡ names.old.entries) }
{
    change_at(alloc, names, name, Reaches::new(), |reaches| {
        reaches.add(reach);
        Ok(())
    })
}

#[derive(Drop)]
pub(crate) struct Instants {
    threads: BTreeMap<Thread, ThreadInstants>,
}

impl Model for Instants {
    ghost use Rattle.span_keyed_tracks.specs.Instants.{InstantsKept};

    ghost Value = { InstantsKept };

    ghost view = { λ i. i.threads.entries };
}

impl Instants {
    pub(crate) fn new(alloc: Global) -> Instants
        ensures { result ≡ [] }
    {
        Instants {
            threads: BTreeMap::new(alloc),
        }
    }

    pub(crate) fn add(
        &mut self,
        alloc: Global,
        thread: Thread,
        name: &Text,
        reach: Reach,
    ) -> Result<(), TrackFault>
        requires { HasInstantRoom self.old }
        ensures refusal { Answers result None }
        ensures takes { OnOk result (TakesInstant self.old self.new
            (record { key = thread; step = record { key = name.now; step = reach } })) }
        ensures err { OnErr result (self.new ≡ self.old) }
    {
        let none = ThreadInstants::new();
        change_at(alloc, &mut self.threads, &thread, none, |instants| {
            instants.add(alloc, name, reach)
        })
    }

    pub(crate) fn of(&self, thread: Thread, name: &Text, reach: Reach) -> u32
        ensures { result ≡ count_at reach
            (kept_at text_cmp (counts_of []) (kept_at thread_cmp [] self.now thread) name.now) }
    {
        match self.threads.get(&thread) {
            Some(instants) => instants.of(name, reach),
            None => 0,
        }
    }

    // The rows of one thread.
    pub(crate) fn rows_of(
        &self,
        alloc: Global,
        thread: Thread,
    ) -> Result<Vec<InstantRow>, AllocError>
        ensures { IfOk result
            (λ rows. rows.items ≡ rows_of_thread (thread, kept_at thread_cmp [] self.now thread)) }
    {
        let mut rows = Vec::new(alloc);
        if let Some(instants) = self.threads.get(&thread) {
            instants.push_rows(alloc, &mut rows, thread)?;
        }
        Ok(rows)
    }

    pub(crate) fn rows(&self, alloc: Global) -> Result<Vec<InstantRow>, AllocError>
        ensures { IfOk result (λ rows. rows.items ≡ rows_of_instants self.now) }
    {
        let mut rows = Vec::new(alloc);
        for (thread, instants) in &self.threads {
            instants.push_rows(alloc, &mut rows, *thread)?;
        }
        Ok(rows)
    }
}
