//! The track of flow chains.
ghost use Rattle.std.specs.Prelude.{◌≡◌, [], map, Some, None, IfOk, OnOk, OnErr};
ghost use Rattle.span_keyed_tracks.specs.{IsTime, Fault.{Answers, TakesNoMemory}, Flow.{FlowStandsFor, HasFlowRoom, TakesFlow, started, stepped, finished, flow_closed, flow_cmp, flow_point_refusal, flow_row, flow_chains_at, flow_start_refusal, flow_totals}};

mod key_chains;

use crate::fault::TrackFault;
use crate::hashed;
use crate::keys::FlowKey;
use indexmap::IndexMap;
use key_chains::KeyChains;
use span_names::HashKeys;
use std::alloc::{AllocError, Global};
use std::marker::Model;

/// The flow chains of one key. Lengths are ticks.
#[derive(Clone, Copy, Debug, PartialEq, Eq)]
pub struct FlowTotals {
    /// How many chains ended.
    pub ended: u32,
    /// Their lengths together.
    pub total: u128,
    /// How many points the unclosed chain has; 0 where there is none.
    pub unclosed: u32,
}

/// A key that has a point, and what its points give.
#[derive(Debug, Drop, PartialEq, Eq)]
pub struct FlowRow {
    pub key: FlowKey,
    pub totals: FlowTotals,
}

/// A chain that ended.
#[derive(Clone, Copy, Debug, PartialEq, Eq)]
pub struct FlowClosed {
    /// How many points it has, with its start and its finish.
    pub points: u32,
    /// The ticks from its start to its finish.
    pub length: u64,
}

/// The flow chains of all keys. Times are ticks.
#[derive(Drop)]
pub struct FlowTrack {
    alloc: Global,
    keys: IndexMap<FlowKey, KeyChains, HashKeys>,
}

impl Model for FlowTrack {
    ghost use Rattle.span_keyed_tracks.specs.{Flow.{FlowKept, flow_cmp}, Keyed.{AreDistinct, in_key_order}};

    ghost Value = { FlowKept };

    ghost view = { λ t. in_key_order flow_cmp t.keys.entries };

    ghost invariant = { λ t. AreDistinct flow_cmp t.keys.entries };
}

impl FlowTrack {
    /// The track of no events, for input that is trusted. Takes no memory.
    pub fn new(alloc: Global) -> FlowTrack
        ensures { FlowStandsFor result [] }
    {
        FlowTrack::with_keys(alloc, HashKeys::fixed())
    }

    /// The track of no events, which looks keys up by these. Takes no memory.
    pub fn with_keys(alloc: Global, keys: HashKeys) -> FlowTrack
        ensures { FlowStandsFor result [] }
    {
        FlowTrack {
            alloc,
            keys: IndexMap::with_hasher(alloc, keys),
        }
    }

    /// A chain of the key starts; `FlowOpen` where one is unclosed.
    pub fn start_flow(&mut self, key: &FlowKey, ts: i64) -> Result<(), TrackFault>
        requires room { HasFlowRoom self.old key.now }
        requires in_time { IsTime ts }
        ensures refusal { Answers result (flow_start_refusal (flow_chains_at self.old key.now)) }
        ensures stands { OnOk result
            (TakesFlow self.old self.new (record { key = key.now; step = started ts })) }
        ensures err { OnErr result (self.new ≡ self.old) }
    {
        let none = KeyChains::new();
        hashed::change_at(
            self.alloc,
            &mut self.keys,
            key,
            none,
            |chains| chains.start(ts),
        )
    }

    /// The unclosed chain of the key gets one more point; `NoFlow` where there is none, `TimeGoesBack` where `ts` is below the
    /// time of its last point. Takes no memory.
    pub fn step_flow(&mut self, key: &FlowKey, ts: i64) -> Result<(), TrackFault>
        requires room { HasFlowRoom self.old key.now }
        requires in_time { IsTime ts }
        ensures refusal { Answers result (flow_point_refusal (flow_chains_at self.old key.now) ts) }
        ensures stands { OnOk result
            (TakesFlow self.old self.new (record { key = key.now; step = stepped ts })) }
        ensures err { OnErr result (self.new ≡ self.old) }
        ensures memory { TakesNoMemory result }
    {
        let none = KeyChains::new();
        hashed::change_at(
            self.alloc,
            &mut self.keys,
            key,
            none,
            |chains| chains.step(ts),
        )
    }

    /// The unclosed chain of the key gets its last point and ends. Answers how many points it has, and its length; or
    /// `NoFlow` where there is none, or `TimeGoesBack` where `ts` is below the time of its last point. Takes no memory.
    pub fn end_flow(&mut self, key: &FlowKey, ts: i64) -> Result<FlowClosed, TrackFault>
        requires room { HasFlowRoom self.old key.now }
        requires in_time { IsTime ts }
        ensures refusal { Answers result (flow_point_refusal (flow_chains_at self.old key.now) ts) }
        ensures closed { IfOk result
            (λ closed. flow_closed (flow_chains_at self.old key.now) ts ≡ Some closed) }
        ensures stands { OnOk result
            (TakesFlow self.old self.new (record { key = key.now; step = finished ts })) }
        ensures err { OnErr result (self.new ≡ self.old) }
        ensures memory { TakesNoMemory result }
    {
        let none = KeyChains::new();
        hashed::change_at(
            self.alloc,
            &mut self.keys,
            key,
            none,
            |chains| chains.end(ts),
        )
    }

    /// What the points of the key give; zeros for an unknown key. Takes no memory.
    pub fn of(&self, key: &FlowKey) -> FlowTotals
        ensures { result ≡ flow_totals (flow_chains_at self.now key.now) }
    {
        match hashed::find(&self.keys, key) {
            Some(chains) => chains.totals(),
            None => FlowTotals {
                ended: 0,
                total: 0,
                unclosed: 0,
            },
        }
    }

    /// The row of each key that has a point, in ascending order of keys.
    pub fn rows(&self, alloc: Global) -> Result<Vec<FlowRow>, AllocError>
        ensures { IfOk result (λ rows. rows.items ≡ map flow_row self.now) }
    {
        let mut rows = rows_of(alloc, &self.keys)?;
        rows.sort_unstable_by(|a, b| a.key.cmp(&b.key));
        Ok(rows)
    }
}

// The row of each key, in the order of their first events.
fn rows_of(
    alloc: Global,
    keys: &IndexMap<FlowKey, KeyChains, HashKeys>,
) -> Result<Vec<FlowRow>, AllocError>
    ensures { IfOk result (λ rows. rows.items ≡ map flow_row keys.now.entries) }
{
    let mut rows = Vec::with_capacity(alloc, keys.len())?;
    for (key, chains) in keys {
        rows.push(FlowRow {
            key: key.try_clone(alloc)?,
            totals: chains.totals(),
        })?;
    }
    Ok(rows)
}
