//! An event of a trace.
ghost use Rattle.std.specs.{Cmp.{partial_order_from_own_ties, Rules.comparing}, Ordering.as_partial_cmp, Prelude.{◌≡◌, IfOk}};
ghost use Rattle.std.proofs.Common.{rules};

use crate::args::Args;
use crate::boxed_id::BoxedId;
use crate::text::Text;
use std::alloc::{AllocError, Global};
use std::cmp::Ordering;

/// What an event says, by the letter of its `ph`; `I` is read as `i`.
#[derive(Clone, Copy, Debug, PartialEq, Eq)]
pub enum Phase {
    /// `B`: a span begins.
    SpanBegin,
    /// `E`: the span that began last ends.
    SpanEnd,
    /// `X`: a whole span, with its length.
    Complete,
    /// `b`: an asynchronous span begins.
    AsyncBegin,
    /// `n`: a point of an asynchronous span.
    AsyncPoint,
    /// `e`: an asynchronous span ends.
    AsyncEnd,
    /// `s`: a flow chain starts.
    FlowStart,
    /// `t`: a point of a flow chain.
    FlowStep,
    /// `f`: the last point of a flow chain.
    FlowEnd,
    /// `C`: a sample of counters.
    Counter,
    /// `i` or `I`: an instant.
    Instant,
    /// `M`: a name, label or sort index of a process or a thread.
    Meta,
}

/// The id of an asynchronous span, a flow chain or a counter. Where `home` is a process, the id is known in that process alone.
#[derive(Debug, Drop, PartialEq, Eq, Hash)]
pub struct IdKey {
    pub home: Option<i64>,
    pub id: Text,
}

impl IdKey {
    pub fn try_clone(&self, alloc: Global) -> Result<IdKey, AllocError>
        ensures { IfOk result (λ key. key ≡ self.now) }
    {
        let id = self.id.try_clone(alloc)?;
        Ok(IdKey {
            home: self.home,
            id,
        })
    }
}

impl PartialOrd for IdKey {
    ghost use Rattle.span_event.specs.Orders.{id_cmp};

    ghost partial_cmp = { as_partial_cmp id_cmp };

    ghost laws = { partial_order_from_own_ties (Prim.search (comparing, rules)) (Prim.search (comparing, rules)) };

    fn partial_cmp(&self, other: &IdKey) -> Option<Ordering> {
        Some(self.cmp(other))
    }
}

/// By home, none before any, and then by the bytes of the id.
impl Ord for IdKey {
    ghost use Rattle.span_event.specs.Orders.{id_cmp};

    ghost cmp = { id_cmp };

    ghost total = { Prim.search (comparing, rules) };

    ghost matches_partial_cmp = { Prim.search (comparing, rules) };

    ghost matches_eq = { Prim.search (comparing, rules) };

    fn cmp(&self, other: &IdKey) -> Ordering {
        self.home.cmp(&other.home).then(self.id.cmp(&other.id))
    }
}

/// How far an instant reaches.
#[derive(Clone, Copy, Debug, PartialEq, Eq, Hash)]
pub enum Reach {
    Global,
    Process,
    Thread,
}

impl PartialOrd for Reach {
    ghost use Rattle.span_event.specs.Orders.{reach_cmp};

    ghost partial_cmp = { as_partial_cmp reach_cmp };

    ghost laws = { partial_order_from_own_ties (Prim.search (comparing, rules)) (Prim.search (comparing, rules)) };

    fn partial_cmp(&self, other: &Reach) -> Option<Ordering> {
        Some(self.cmp(other))
    }
}

/// The wider reach first.
impl Ord for Reach {
    ghost use Rattle.span_event.specs.Orders.{reach_cmp};

    ghost cmp = { reach_cmp };

    ghost total = { Prim.search (comparing, rules) };

    ghost matches_partial_cmp = { Prim.search (comparing, rules) };

    ghost matches_eq = { Prim.search (comparing, rules) };

    fn cmp(&self, other: &Reach) -> Ordering {
        (*self as u8).cmp(&(*other as u8))
    }
}

/// One event of a trace. Times and lengths are whole numbers of the run's unit.
///
/// A field that the phase does not read has its default: `ts` 0 at `Meta`, `dur` 0 but at `Complete`, no `key`,
/// an empty `scope`, no `reach`.
#[derive(Debug, Drop)]
pub struct Event {
    pub phase: Phase,
    // Fields lie in this order: beside the phase it takes no room of its own.
    pub reach: Option<Reach>,
    pub name: Text,
    pub cat: Text,
    /// From -4611686018427387903 to 4611686018427387903.
    pub ts: i64,
    /// From 0 to 4611686018427387903.
    pub dur: u64,
    pub pid: i64,
    pub tid: i64,
    pub key: Option<BoxedId>,
    pub scope: Text,
    pub args: Args,
}

impl Event {
    pub fn try_clone(&self, alloc: Global) -> Result<Event, AllocError>
        ensures { IfOk result (λ event. event ≡ self.now) }
    {
        let name = self.name.try_clone(alloc)?;
        let cat = self.cat.try_clone(alloc)?;
        let key = match &self.key {
            Some(key) => Some(key.try_clone(alloc)?),
            None => None,
        };
        let scope = self.scope.try_clone(alloc)?;
        let args = self.args.try_clone(alloc)?;
        Ok(Event {
            phase: self.phase,
            reach: self.reach,
            name,
            cat,
            ts: self.ts,
            dur: self.dur,
            pid: self.pid,
            tid: self.tid,
            key,
            scope,
            args,
        })
    }
}
