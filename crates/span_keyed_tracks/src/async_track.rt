//! The track of asynchronous spans.
ghost use Rattle.std.specs.Prelude.{◌≡◌, [], ◌∷◌, List, map, None, IfOk, OnOk, OnErr};
ghost use Rattle.span_keyed_tracks.specs.{IsTime, Async.{AsyncEvent, AsyncStandsFor, HasAsyncRoom, TakesAsync, async_cmp, async_end_refusal, async_row, async_spans_at, async_totals, length_closed_by}, Fault.{Answers, TakesNoMemory}, Keyed.steps_at, Matching.{opens, closes, other}};

mod key_spans;

use crate::fault::TrackFault;
use crate::hashed;
use crate::keys::AsyncKey;
use indexmap::IndexMap;
use key_spans::KeySpans;
use span_names::HashKeys;
use std::alloc::{AllocError, Global};
use std::marker::Model;

/// The asynchronous spans of one key. Lengths are ticks.
#[derive(Clone, Copy, Debug, PartialEq, Eq)]
pub struct AsyncTotals {
    /// How many ends matched a begin.
    pub closed: u32,
    /// The lengths from these begins to their ends together.
    pub total: u128,
    /// How many begins no end has matched.
    pub unclosed: u32,
    /// How many points there are.
    pub points: u32,
}

/// A key that has an event, and what its events give.
#[derive(Debug, Drop, PartialEq, Eq)]
pub struct AsyncRow {
    pub key: AsyncKey,
    pub totals: AsyncTotals,
}

/// The asynchronous spans of all keys. Times are ticks.
#[derive(Drop)]
pub struct AsyncTrack {
    alloc: Global,
    keys: IndexMap<AsyncKey, KeySpans, HashKeys>,
}

impl Model for AsyncTrack {
    ghost use Rattle.span_keyed_tracks.specs.{Async.{AsyncKept, async_cmp}, Keyed.{AreDistinct, in_key_order}};

    ghost Value = { AsyncKept };

    ghost view = { λ t. in_key_order async_cmp t.keys.entries };

    ghost invariant = { λ t. AreDistinct async_cmp t.keys.entries };
}

impl AsyncTrack {
    /// The track of no events, for input that is trusted. Takes no memory.
    pub fn new(alloc: Global) -> AsyncTrack
        ensures { AsyncStandsFor result [] }
    {
        AsyncTrack::with_keys(alloc, HashKeys::fixed())
    }

    /// The track of no events, which looks keys up by these. Takes no memory.
    pub fn with_keys(alloc: Global, keys: HashKeys) -> AsyncTrack
        ensures { AsyncStandsFor result [] }
    {
        AsyncTrack {
            alloc,
            keys: IndexMap::with_hasher(alloc, keys),
        }
    }

    /// A span of the key begins. Only want of memory refuses it.
    pub fn begin_async(&mut self, key: &AsyncKey, ts: i64) -> Result<(), TrackFault>
        requires room { HasAsyncRoom self.old key.now }
        requires in_time { IsTime ts }
        ensures refusal { Answers result None }
        ensures stands { OnOk result
            (TakesAsync self.old self.new (record { key = key.now; step = opens ts })) }
        ensures err { OnErr result (self.new ≡ self.old) }
    {
        let none = KeySpans::new(self.alloc);
        hashed::change_at(
            self.alloc,
            &mut self.keys,
            key,
            none,
            |spans| spans.begin(ts),
        )
    }

    /// The last unmatched begin of the key ends. Answers the length of the span in ticks; or `NoOpenAsync` where no
    /// begin of the key is left that it matches, or `EndBeforeBegin` where `ts` is below the time of that begin. Takes no memory.
    pub fn end_async(&mut self, key: &AsyncKey, ts: i64) -> Result<u64, TrackFault>
        requires in_time { IsTime ts }
        ensures refusal { (es : List AsyncEvent) → AsyncStandsFor self.old es
            → Answers result (async_end_refusal (steps_at async_cmp key.now es) ts) }
        ensures length { IfOk result (λ length. (es : List AsyncEvent) → AsyncStandsFor self.old es
            → length_closed_by (steps_at async_cmp key.now es) (closes ts) ≡ length ∷ []) }
        ensures stands { OnOk result
            (TakesAsync self.old self.new (record { key = key.now; step = closes ts })) }
        ensures err { OnErr result (self.new ≡ self.old) }
        ensures memory { TakesNoMemory result }
    {
        let none = KeySpans::new(self.alloc);
        hashed::change_at(self.alloc, &mut self.keys, key, none, |spans| spans.end(ts))
    }

    /// A point of the key. Only want of memory refuses it.
    pub fn point(&mut self, key: &AsyncKey) -> Result<(), TrackFault>
        requires room { HasAsyncRoom self.old key.now }
        ensures refusal { Answers result None }
        ensures stands { OnOk result
            (TakesAsync self.old self.new (record { key = key.now; step = other tt })) }
        ensures err { OnErr result (self.new ≡ self.old) }
    {
        let none = KeySpans::new(self.alloc);
        hashed::change_at(self.alloc, &mut self.keys, key, none, |spans| {
            spans.point();
            Ok(())
        })
    }

    /// What the events of the key give; zeros for an unknown key. Takes no memory.
    pub fn of(&self, key: &AsyncKey) -> AsyncTotals
        ensures { result ≡ async_totals (async_spans_at self.now key.now) }
    {
        match hashed::find(&self.keys, key) {
            Some(spans) => spans.totals(),
            None => AsyncTotals {
                closed: 0,
                total: 0,
                unclosed: 0,
                points: 0,
            },
        }
    }

    /// The length of the longest closed span of the key; 0 where there is none. Takes no memory.
    pub fn longest(&self, key: &AsyncKey) -> u64
        ensures { result ≡ (async_spans_at self.now key.now).longest }
    {
        match hashed::find(&self.keys, key) {
            Some(spans) => spans.longest(),
            None => 0,
        }
    }

    /// The row of each key that has an event, in ascending order of keys.
    pub fn rows(&self, alloc: Global) -> Result<Vec<AsyncRow>, AllocError>
        ensures { IfOk result (λ rows. rows.items ≡ map async_row self.now) }
    {
        let mut rows = rows_of(alloc, &self.keys)?;
        rows.sort_unstable_by(|a, b| a.key.cmp(&b.key));
        Ok(rows)
    }
}

// The row of each key, in the order of their first events.
fn rows_of(
    alloc: Global,
    keys: &IndexMap<AsyncKey, KeySpans, HashKeys>,
) -> Result<Vec<AsyncRow>, AllocError>
    ensures { IfOk result (λ rows. rows.items ≡ map async_row keys.now.entries) }
{
    let mut rows = Vec::with_capacity(alloc, keys.len())?;
    for (key, spans) in keys {
        rows.push(AsyncRow {
            key: key.try_clone(alloc)?,
            totals: spans.totals(),
        })?;
    }
    Ok(rows)
}
