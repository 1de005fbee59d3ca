//! What became of one caller's items: how many were accepted, and how many each number refused, and which first.
ghost use Rattle.std.specs.{Ordering.nat_cmp, Prelude.{◌≡◌, ◌-◌, ◌^◌, ◌<◌, ℕ, List, [], ◌∷◌, ◌++◌, OnOk}};
ghost use Rattle.span_collect.specs.{kept_at, Refusals.{number_in, refused_at, Tallies.{HasRoom, Takes, tally_of}}};

use span_journal::{Answer, CountRow};
use std::alloc::{AllocError, Global};
use std::collections::BTreeMap;
use std::marker::Model;

// How many items one number refused, and the place of the first among their caller's.
#[derive(Clone, Copy, Debug, PartialEq, Eq)]
pub(crate) struct Refused {
    pub(crate) count: u32,
    pub(crate) first: u32,
}

impl Refused {
    // With one more item.
    fn and(self, place: u32) -> Refused
        requires { self.count < 2 ^ 32 - 1 }
        ensures { (places : List ℕ) → self ≡ refused_at places
            → result ≡ refused_at (places ++ place ∷ []) }
    {
        let first = if self.count == 0 { place } else { self.first };
        Refused {
            count: self.count + 1,
            first,
        }
    }
}

// The answers to one caller's items.
#[derive(Drop)]
pub(crate) struct Tally {
    items: u32,
    pub(crate) counts: CountRow,
    pub(crate) refused: BTreeMap<u16, Refused>,
}

impl Model for Tally {
    ghost use Rattle.span_collect.specs.Refusals.Tallies.{Tallied};

    ghost Value = { Tallied };

    ghost view = { λ t. record { items = t.items; counts = t.counts; refused = t.refused.entries } };
}

impl Tally {
    pub(crate) fn new(alloc: Global) -> Tally
        ensures { result ≡ tally_of [] }
    {
        Tally {
            items: 0,
            counts: CountRow::of_no_entries(),
            refused: BTreeMap::new(alloc),
        }
    }

    // Takes one more answer.
    pub(crate) fn add(&mut self, answer: &Answer) -> Result<(), AllocError>
        requires { HasRoom self.old }
        ensures { OnOk result (Takes answer.now self.old self.new) }
    {
        if let Some(code) = number_in(answer) {
            let refused = self.refused_with(code).and(self.items);
            self.refused.insert(code, refused)?;
        }
        self.counts.count(answer);
        self.items += 1;
        Ok(())
    }

    // What this number refused.
    fn refused_with(&self, code: u16) -> Refused
        ensures { result ≡ kept_at nat_cmp (refused_at []) self.now.refused code }
    {
        match self.refused.get(&code) {
            Some(refused) => *refused,
            None => Refused { count: 0, first: 0 },
        }
    }
}

// The number with which an answer refuses its item.
fn number_in(answer: &Answer) -> Option<u16>
    ensures { result ≡ number_in answer.now }
{
    match answer {
        Answer::Refused(code) => Some(*code),
        _ => None,
    }
}
