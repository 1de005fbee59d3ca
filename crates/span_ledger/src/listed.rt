//! The processes and threads that a journal lists.
ghost use Rattle.std.specs.{BTreeSet.insert_key, Ordering.int_cmp, Prelude.{◌≡◌, ◌<◌, [], IfOk, OnOk, IsTrue}};
ghost use Rattle.span_ledger.specs.{thread_cmp, ascending};

use indexmap::IndexSet;
use span_event::Thread;
use span_names::HashKeys;
use std::alloc::{AllocError, Global};
use std::collections::BTreeSet;
use std::marker::Model;

/// How many threads are found without hashing them.
const RECENT: usize = 16;

// Each once, in the order of the events that listed them.
#[derive(Drop)]
pub(crate) struct Listed {
    pub(crate) processes: IndexSet<i64, HashKeys>,
    pub(crate) threads: IndexSet<Thread, HashKeys>,
    // Where in `threads` those stand that events were on lately, each at a place that the thread's number gives. The thread that stands
    // there is compared before it is taken for the event's, so any number may stand here.
    recent: [usize; RECENT],
}

impl Model for Listed {
    ghost use Rattle.std.specs.{List.{list_all, list_any}, Ordering.int_eq, Prelude.{◌≡◌, true}};
    ghost use Rattle.indexmap.specs.IndexSet.{spare};
    ghost use Rattle.span_ledger.specs.Tracked.{ListedKept};

    ghost Value = { ListedKept };

    ghost view = { λ l. record {
      processes = l.processes.keys;
      threads = l.threads.keys;
      process_room = spare l.processes;
      thread_room = spare l.threads;
    } };

    ghost invariant = { λ l.
        list_all (λ thread. list_any (int_eq thread.pid) l.processes.keys) l.threads.keys ≡ true };
}

impl Listed {
    pub(crate) fn new(alloc: Global, keys: HashKeys) -> Listed
        ensures processes { ascending int_cmp result.processes ≡ [] }
        ensures threads { ascending thread_cmp result.threads ≡ [] }
    {
        Listed {
            processes: IndexSet::with_hasher(alloc, keys),
            threads: IndexSet::with_hasher(alloc, keys),
            recent: [0; RECENT],
        }
    }

    // Makes room for one more process and one more thread.
    pub(crate) fn reserve(&mut self) -> Result<(), AllocError>
        ensures processes { self.new.processes ≡ self.old.processes }
        ensures threads { self.new.threads ≡ self.old.threads }
        ensures process_room { OnOk result (0 < self.new.process_room) }
        ensures thread_room { OnOk result (0 < self.new.thread_room) }
    {
        self.processes.reserve(1)?;
        self.threads.reserve(1)
    }

    // Lists a process.
    pub(crate) fn add_process(&mut self, pid: i64)
        requires { 0 < self.old.process_room }
        ensures processes { ascending int_cmp self.new.processes
            ≡ insert_key int_cmp (ascending int_cmp self.old.processes) pid }
        ensures threads { self.new.threads ≡ self.old.threads }
    {
        if self.processes.insert(pid).is_err() {
            unreachable!();
        }
    }

    // Lists a thread and its process.
    pub(crate) fn add(&mut self, thread: Thread)
        requires process_room { 0 < self.old.process_room }
        requires thread_room { 0 < self.old.thread_room }
        ensures processes { ascending int_cmp self.new.processes
            ≡ insert_key int_cmp (ascending int_cmp self.old.processes) thread.pid }
        ensures threads { ascending thread_cmp self.new.threads
            ≡ insert_key thread_cmp (ascending thread_cmp self.old.threads) thread }
    {
        let place = thread.tid.rem_euclid(16) as usize;
        if self.has_at(self.recent[place], &thread) {
            return;
        }
        let index = self.list(thread);
        self.recent[place] = index;
    }

    // Whether the thread is listed there, so that there is nothing to be listed.
    fn has_at(&self, index: usize, thread: &Thread) -> bool
        ensures processes { IsTrue result → ascending int_cmp self.now.processes
            ≡ insert_key int_cmp (ascending int_cmp self.now.processes) thread.now.pid }
        ensures threads { IsTrue result → ascending thread_cmp self.now.threads
            ≡ insert_key thread_cmp (ascending thread_cmp self.now.threads) thread.now }
    {
        match self.threads.get_index(index) {
            Some(listed) => thread == listed,
            None => false,
        }
    }

    // Lists a thread and its process, which a listed thread has listed already, and answers where it stands.
    fn list(&mut self, thread: Thread) -> usize
        requires process_room { 0 < self.old.process_room }
        requires thread_room { 0 < self.old.thread_room }
        ensures processes { ascending int_cmp self.new.processes
            ≡ insert_key int_cmp (ascending int_cmp self.old.processes) thread.pid }
        ensures threads { ascending thread_cmp self.new.threads
            ≡ insert_key thread_cmp (ascending thread_cmp self.old.threads) thread }
    {
        match self.threads.insert_full(thread) {
            Ok((index, true)) => {
                if self.processes.insert(thread.pid).is_err() {
                    unreachable!();
                }
                index
            }
            Ok((index, false)) => index,
            Err(_) => unreachable!(),
        }
    }

    pub(crate) fn ordered_processes(&self, alloc: Global) -> Result<BTreeSet<i64>, AllocError>
        ensures { IfOk result (λ set. set.keys ≡ ascending int_cmp self.now.processes) }
    {
        let mut set = BTreeSet::new(alloc);
        for pid in &self.processes {
            set.insert(*pid)?;
        }
        Ok(set)
    }

    pub(crate) fn ordered_threads(&self, alloc: Global) -> Result<BTreeSet<Thread>, AllocError>
        ensures { IfOk result (λ set. set.keys ≡ ascending thread_cmp self.now.threads) }
    {
        let mut set = BTreeSet::new(alloc);
        for thread in &self.threads {
            set.insert(*thread)?;
        }
        Ok(set)
    }
}
