//! The track of counters.
ghost use Rattle.std.specs.{Map.values_of, Prelude.{◌≡◌, ◌+◌, ◌<◌, ◌≤◌, [], None, length, map, option_and_then, option_copied, slice_get, vec_len, IfOk, OnOk, OnErr}};
ghost use Rattle.indexmap.specs.IndexMap.{insert_all, insert_entry, spare};
ghost use Rattle.span_keyed_tracks.specs.{Event, Counter as CounterPhase, AllWhole, IsGood, Gives, Counters.{CounterStandsFor, HasCounterRoom, TakesCounter, series_cmp, series_rows, series_totals}, CountersKept.{AreNumbered, ArePlaced, HasRoomIn, IsPlaced, found_at, key_at, kept_row, kept_series, named, next_entry, same_numbered, same_series}, Fault.Answers};

mod counter;
mod running;

use crate::fault::TrackFault;
use crate::keys::SeriesKey;
use counter::{Counter, NumberedSeries};
use indexmap::{IndexMap, IndexSet};
use running::Running;
use span_event::{ArgValue, Event, Text};
use span_names::HashKeys;
use std::alloc::{AllocError, Global};
use std::cmp::Ordering;
use std::marker::Model;

/// The samples of one series.
#[derive(Clone, Copy, Debug, PartialEq, Eq)]
pub struct SeriesTotals {
    /// How many samples there are.
    pub samples: u32,
    pub least: i64,
    pub greatest: i64,
    /// Of the samples at the greatest time the value of the one that came last.
    pub last: i64,
}

/// A series that has a sample, and what its samples give.
#[derive(Debug, Drop, PartialEq, Eq)]
pub struct SeriesRow {
    pub key: SeriesKey,
    pub totals: SeriesTotals,
}

/// A series that has a sample, where the track keeps it. A contract sees its row.
#[derive(Drop)]
pub struct SeriesRef<'a> {
    counter: &'a Counter,
    series: &'a Text,
    running: &'a Running,
}

impl<'a> Model for SeriesRef<'a> {
    ghost use Rattle.span_keyed_tracks.specs.{CountersKept.key_of, declared.counter_track.SeriesRow.{SeriesRow}};

    ghost Value = { SeriesRow };

    ghost view = { λ s. record { key = key_of s.counter.now s.series.now; totals = s.running.now.totals } };
}

impl SeriesRef<'_> {
    /// The row, which shares long texts with the track.
    pub fn to_row(&self, alloc: Global) -> Result<SeriesRow, AllocError>
        ensures { IfOk result (λ row. row ≡ self.now) }
    {
        Ok(SeriesRow {
            key: self.counter.key_of(alloc, self.series)?,
            totals: self.running.totals(),
        })
    }

    fn order(&self, other: &SeriesRef<'_>) -> Ordering
        ensures { result ≡ series_cmp self.now.key other.now.key }
    {
        let (a, b) = (self.counter, other.counter);
        (a.pid, (&a.name, (&a.id, self.series))).cmp(&(b.pid, (&b.name, (&b.id, other.series))))
    }
}

type Counters = IndexSet<Counter, HashKeys>;

type Entries = IndexMap<NumberedSeries, Running, HashKeys>;

/// The series of all counters.
#[derive(Drop)]
pub struct CounterTrack {
    alloc: Global,
    counters: Counters,
    series: Entries,
}

impl Model for CounterTrack {
    ghost use Rattle.span_keyed_tracks.specs.{Counters.CountersKept, CountersKept.{AreNumbered, kept_series, named}};

    ghost Value = { CountersKept };

    ghost view = { λ t. kept_series (named t.counters.keys t.series.entries) };

    ghost invariant = { λ t. AreNumbered t.counters.keys t.series.entries };
}

impl CounterTrack {
    /// The track of no events, for input that is trusted. Takes no memory.
    pub fn new(alloc: Global) -> CounterTrack
        ensures { CounterStandsFor result [] }
    {
        CounterTrack::with_keys(alloc, HashKeys::fixed())
    }

    /// The track of no events, which looks series up by these keys. Takes no memory.
    pub fn with_keys(alloc: Global, keys: HashKeys) -> CounterTrack
        ensures { CounterStandsFor result [] }
    {
        CounterTrack {
            alloc,
            counters: IndexSet::with_hasher(alloc, keys),
            series: IndexMap::with_hasher(alloc, keys),
        }
    }

    /// A counter event: each member of its arguments is a value of a series, and all are taken or none. Only want of memory refuses it.
    pub fn sample(&mut self, event: &Event) -> Result<(), TrackFault>
        requires good { IsGood event.now }
        requires phase { event.now.phase ≡ CounterPhase }
        requires room { HasCounterRoom self.old }
        ensures refusal { Answers result None }
        ensures stands { OnOk result (TakesCounter self.old self.new event.now) }
        ensures err { OnErr result (self.new ≡ self.old) }
    {
        match take(self.alloc, &mut self.counters, &mut self.series, event) {
            Ok(()) => Ok(()),
            Err(_) => Err(TrackFault::Memory),
        }
    }

    /// What the samples of the series give; nothing where it has none. Takes memory for a copy of the key, for so long, if there is any.
    pub fn of(&self, key: &SeriesKey) -> Option<SeriesTotals>
        ensures { Gives CounterStandsFor self.now (series_totals key.now) result }
    {
        let running = find(self.alloc, &self.counters, &self.series, key)?;
        Some(running.totals())
    }

    /// The series that have a sample, in ascending order of keys.
    pub fn sorted(&self, alloc: Global) -> Result<Vec<SeriesRef<'_>>, AllocError>
        ensures { IfOk result (λ rows. Gives CounterStandsFor self.now series_rows rows.items) }
    {
        let mut sorted = refs_of(alloc, &self.counters, &self.series)?;
        sorted.sort_unstable_by(|a, b| a.order(b));
        Ok(sorted)
    }

    /// The row of each series that has a sample, in ascending order of keys.
    pub fn rows(&self, alloc: Global) -> Result<Vec<SeriesRow>, AllocError>
        ensures { IfOk result (λ rows. Gives CounterStandsFor self.now series_rows rows.items) }
    {
        let sorted = self.sorted(alloc)?;
        let mut rows = Vec::with_capacity(alloc, sorted.len())?;
        for series in &sorted {
            rows.push(series.to_row(alloc)?)?;
        }
        Ok(rows)
    }
}

// Takes an event: room is made and copies are taken before anything changes.
fn take(
    alloc: Global,
    counters: &mut Counters,
    entries: &mut Entries,
    event: &Event,
) -> Result<(), AllocError>
    requires whole { AllWhole event.now.args }
    requires numbered { AreNumbered counters.old.keys entries.old.entries }
    requires room { HasCounterRoom (kept_series (named counters.old.keys entries.old.entries)) }
    ensures stands { OnOk result
        (TakesCounter (kept_series (named counters.old.keys entries.old.entries))
        (kept_series (named counters.new.keys entries.new.entries)) event.now) }
    ensures numbered { AreNumbered counters.new.keys entries.new.entries }
    ensures counters_err { OnErr result (counters.new.keys ≡ counters.old.keys) }
    ensures err { OnErr result (entries.new.entries ≡ entries.old.entries) }
{
    entries.reserve(event.args.pairs().len())?;
    counters.reserve(1)?;
    let counter = Counter::of(alloc, event)?;
    let number = counters.get_index_of(&counter).unwrap_or(counters.len());
    let next = next_entries(alloc, entries, number, event)?;
    if counters.insert(counter).is_err() {
        unreachable!();
    }
    put_all(entries, next);
    Ok(())
}

// A series that an event has a value of: its place, where it has one, its key, and what is kept of it then.
type Next = (Option<usize>, NumberedSeries, Running);

// What each series of the event's counter, which has this number, is once it has the event's value of it.
fn next_entries(
    alloc: Global,
    entries: &Entries,
    counter: usize,
    event: &Event,
) -> Result<Vec<Next>, AllocError>
    requires whole { AllWhole event.now.args }
    requires room { HasRoomIn entries.now.entries counter }
    ensures next { IfOk result (λ next. map (λ n. (n.1, n.2)) next.items
        ≡ map (next_entry entries.now.entries counter event.now) event.now.args) }
    ensures places { IfOk result (λ next. ArePlaced entries.now.entries next.items) }
{
    let members = event.args.pairs();
    let mut next = Vec::with_capacity(alloc, members.len())?;
    for (series, value) in members {
        let ArgValue::Whole(value) = value else {
            unreachable!();
        };
        let key = NumberedSeries {
            counter,
            series: series.try_clone(alloc)?,
        };
        let place = entries.get_index_of(&key);
        let running = Running::with(alloc, at(entries, place), event.ts, *value)?;
        next.push((place, key, running))?;
    }
    Ok(next)
}

// What is kept at a place, where there is one.
fn at(entries: &Entries, place: Option<usize>) -> Option<&Running>
    ensures { option_copied result
        ≡ option_and_then (slice_get (values_of entries.now.entries)) place }
{
    match entries.get_index(place?) {
        Some((_, running)) => Some(running),
        None => None,
    }
}

// Keeps these, for each of which there is room.
fn put_all(entries: &mut Entries, next: Vec<Next>)
    requires fits { vec_len next ≤ spare entries.old }
    requires places { ArePlaced entries.old.entries next.items }
    ensures { entries.new.entries
        ≡ insert_all same_numbered entries.old.entries (map (λ n. (n.1, n.2)) next.items) }
{
    for (place, key, running) in next {
        put(entries, place, key, running);
    }
}

// Keeps one: a key that has a place is not looked up again.
fn put(entries: &mut Entries, place: Option<usize>, key: NumberedSeries, running: Running)
    requires fits { 0 < spare entries.old }
    requires placed { IsPlaced entries.old.entries place key }
    ensures entries { entries.new.entries
        ≡ insert_entry same_numbered entries.old.entries key running }
    ensures spare { spare entries.old ≤ spare entries.new + 1 }
{
    match place {
        Some(place) => {
            if let Some(kept) = entries.get_index_mut(place) {
                *kept = running;
            }
        }
        None => {
            if entries.insert(key, running).is_err() {
                unreachable!();
            }
        }
    }
}

// What is kept at a key.
fn find<'a>(
    alloc: Global,
    counters: &Counters,
    entries: &'a Entries,
    key: &SeriesKey,
) -> Option<&'a Running>
    requires { AreNumbered counters.now.keys entries.now.entries }
    ensures { option_copied result
        ≡ found_at (named counters.now.keys entries.now.entries) key.now }
{
    let Ok(counter) = Counter::of_key(alloc, key) else {
        return search(counters, entries, key);
    };
    let Ok(series) = key.series.try_clone(alloc) else {
        return search(counters, entries, key);
    };
    let counter = counters.get_index_of(&counter)?;
    entries.get(&NumberedSeries { counter, series })
}

// The same, where there is no copy of the key to look up.
fn search<'a>(counters: &Counters, entries: &'a Entries, key: &SeriesKey) -> Option<&'a Running>
    requires { AreNumbered counters.now.keys entries.now.entries }
    ensures { option_copied result
        ≡ found_at (named counters.now.keys entries.now.entries) key.now }
{
    for (kept, running) in entries {
        if has_key(counters, kept, key) {
            return Some(running);
        }
    }
    None
}

// Whether that is the key of a series.
fn has_key(counters: &Counters, kept: &NumberedSeries, key: &SeriesKey) -> bool
    requires { kept.now.counter < length counters.now.keys }
    ensures { result ≡ same_series key.now (key_at counters.now.keys kept.now) }
{
    match counters.get_index(kept.counter) {
        Some(counter) => {
            (key.pid, (&key.name, (&key.id, &key.series)))
                == (counter.pid, (&counter.name, (&counter.id, &kept.series)))
        }
        None => unreachable!(),
    }
}

// The series in the order of their first samples.
fn refs_of<'a>(
    alloc: Global,
    counters: &'a Counters,
    entries: &'a Entries,
) -> Result<Vec<SeriesRef<'a>>, AllocError>
    requires { AreNumbered counters.now.keys entries.now.entries }
    ensures { IfOk result (λ refs. refs.items
        ≡ map kept_row (named counters.now.keys entries.now.entries)) }
{
    let mut refs = Vec::with_capacity(alloc, entries.len())?;
    for (key, running) in entries {
        let Some(counter) = counters.get_index(key.counter) else {
            unreachable!();
        };
        refs.push(SeriesRef {
            counter,
            series: &key.series,
            running,
        })?;
    }
    Ok(refs)
}
