//! The running times: of each name, and of all.
ghost use Rattle.std.specs.{Option.{is_some, option_map}, Prelude.{◌≡◌, ◌≤◌, ◌<◌, ◌+◌, ◌^◌, ◌==◌, ℕ, nat_eq, if◌then◌else◌, Some, None, IsSome, IfSome, List, OnOk}};
ghost use Rattle.indexmap.specs.IndexMap.{get};
ghost use Rattle.span_self_time.specs.{Closed.AreClosed, Division.{Owners, owner_of, owners_of, own_in, KeepsOwners, OwnTimes.{has_name, AreTimes, IsReplaced, CanCharge}}, Spans.{Span, self_of, busy_time}};

use crate::segment::OwnedSegment;
use indexmap::IndexMap;
use span_event::distance;
use std::alloc::{AllocError, Global};

/// The ticks that belong to the spans of each name, and to any span.
#[derive(Clone, Drop)]
pub(crate) struct OwnTimes {
    names: IndexMap<u32, u64>,
    busy: u64,
}

impl OwnTimes {
    pub(crate) fn new(alloc: Global) -> OwnTimes
        ensures { AreTimes (λ u. None) result }
    {
        OwnTimes {
            names: IndexMap::new(alloc),
            busy: 0,
        }
    }

    pub(crate) fn self_of(&self, name: u32) -> u64
        ensures { (spans : List (Span ℕ)) → AreClosed spans → AreTimes (owners_of spans) self.now
            → result ≡ self_of nat_eq name spans }
    {
        own_in(&self.names, name)
    }

    pub(crate) fn busy(&self) -> u64
        ensures { (spans : List (Span ℕ)) → AreClosed spans → AreTimes (owners_of spans) self.now
            → result ≡ busy_time spans }
    {
        self.busy
    }

    /// From now on the name has a time of its own, if only 0.
    pub(crate) fn keep(&mut self, name: u32) -> Result<(), AllocError>
        ensures kept { OnOk result (IsSome (get nat_eq self.new.names name)) }
        ensures same { KeepsOwners AreTimes self.old self.new }
    {
        if !self.names.contains_key(&name) {
            self.names.insert(name, 0)?;
        }
        Ok(())
    }

    /// Who held the time loses it, and then the span gains it.
    pub(crate) fn charge(
        &mut self,
        span: &OwnedSegment,
        held: &Option<OwnedSegment>,
        from: i64,
        until: i64,
    )
        requires kept { IsSome (get nat_eq self.old.names span.now.segment.name) }
        requires change { CanCharge (owner_of span.now) (option_map owner_of held.now) from until self.old }
        ensures times { (old new : Owners) → AreTimes old self.old
            → IsReplaced old new from until (option_map owner_of held.now) (Some (owner_of span.now))
            → AreTimes new self.new }
        ensures kept { (other : ℕ) → IsSome (get nat_eq self.old.names other)
            → IsSome (get nat_eq self.new.names other) }
    {
        self.shift(span.segment.name, held, distance(from, until));
    }

    fn shift(&mut self, name: u32, held: &Option<OwnedSegment>, length: u64)
        requires some { 0 < length }
        requires kept { IsSome (get nat_eq self.old.names name) }
        requires small { own_in self.old.names name + length
            < 2 ^ 64 + (if has_name name (option_map owner_of held.now) then length else 0) }
        requires busy { self.old.busy + length < 2 ^ 64 + (if is_some held.now then length else 0) }
        requires held { IfSome held.now (λ owned. length ≤ own_in self.old.names owned.segment.name) }
        ensures own { (other : ℕ) → own_in self.new.names other
            + (if has_name other (option_map owner_of held.now) then length else 0)
            ≡ own_in self.old.names other + (if name == other then length else 0) }
        ensures busy { self.new.busy + (if is_some held.now then length else 0)
            ≡ self.old.busy + length }
        ensures kept { (other : ℕ) → IsSome (get nat_eq self.old.names other)
            → IsSome (get nat_eq self.new.names other) }
    {
        match held {
            Some(owned) => lose_own(&mut self.names, owned.segment.name, length),
            None => self.busy += length,
        }
        gain_own(&mut self.names, name, length);
    }
}

pub(crate) fn own_in(own: &IndexMap<u32, u64>, name: u32) -> u64
    ensures { result ≡ own_in own.now name }
{
    match own.get(&name) {
        Some(time) => *time,
        None => 0,
    }
}

fn gain_own(own: &mut IndexMap<u32, u64>, name: u32, length: u64)
    requires kept { IsSome (get nat_eq own.old name) }
    requires small { own_in own.old name + length < 2 ^ 64 }
    ensures sum { (other : ℕ) → own_in own.new other
        ≡ own_in own.old other + (if name == other then length else 0) }
    ensures kept { (other : ℕ) → IsSome (get nat_eq own.old other)
        → IsSome (get nat_eq own.new other) }
{
    let Some(held) = own.get_mut(&name) else {
        unreachable!();
    };
    *held += length;
}

fn lose_own(own: &mut IndexMap<u32, u64>, name: u32, length: u64)
    requires some { 0 < length }
    requires held { length ≤ own_in own.old name }
    ensures sum { (other : ℕ) → own_in own.new other + (if name == other then length else 0)
        ≡ own_in own.old other }
    ensures kept { (other : ℕ) → IsSome (get nat_eq own.old other)
        → IsSome (get nat_eq own.new other) }
{
    let Some(held) = own.get_mut(&name) else {
        unreachable!();
    };
    *held -= length;
}
