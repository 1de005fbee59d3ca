//! The tables of sides whose names stand for printed tables.
ghost use Rattle.std.specs.Prelude.{◌≡◌, ◌∷◌, [], IfErr, IfOk};
ghost use Rattle.span_request.specs.declared.tasks.Items.TheVariants.{Printed};
ghost use Rattle.span_runs.specs.declared.stop.Halt.TheVariants.{Memory};
ghost use Rattle.span_tasks.specs.{Name as TheName, IsHint, OfStop, Added.BeginsWith, Sides.{AddTo, AreBothGathered, IsPrintedBase, StopSides, StopsLater, StopsOneSide}};

use crate::place::Place;
use crate::side::{Side, only};
use crate::sides::{Sides, Wanted};
use span_event::Fault;
use span_names::HashKeys;
use span_parts::Parts;
use span_runs::{Halt, Listed, Name, Said, Source};
use span_table::Table;
use std::alloc::{AllocError, Global};
use std::random::RandomSource;
use std::sync::Wait;
use std::thread::Threads;

// Fewer printed tables than this are added.
const TABLES: u64 = 1 << 32;

/// The tables of a side, and parts of their kind.
#[derive(Drop)]
pub(crate) struct PrintedBase {
    kind: Parts,
    pub(crate) side: Side,
}

// How tables are taken: each for itself, or all added. Maps that files fill are hashed by these keys.
#[derive(Clone, Copy)]
struct Taking {
    each: bool,
    keys: HashKeys,
}

impl<'a, R: Threads + Wait + RandomSource + Sync, S: Source + Sync> Place<'a, R, S> {
    /// The tables of the base, and then those of the others, of the same kind.
    pub(crate) fn printed_sides(
        &self,
        wanted: Wanted,
        base: &Listed,
        files: &Listed,
    ) -> Result<Sides, Halt>
        ensures sides { IfOk result (λ sides. AreBothGathered (S.bytes self.now.source.now) Printed
            wanted.entry.options.now wanted.entry.each base.now files.now sides.base sides.other) }
        ensures base_hints { IfOk result (λ sides. IsHint sides.base.hints.items) }
        ensures hints { IfOk result (λ sides. IsHint sides.other.hints.items) }
        ensures stop { IfErr result (OfStop (StopSides (S.bytes self.now.source.now) Printed
            wanted.entry.options.now wanted.entry.each base.now files.now)) }
    {
        let printed = match self.printed_base(wanted, &base.names) {
            Ok(printed) => printed,
            Err(halt) => return Err(halt),
        };
        if files.names.len() as u64 >= TABLES {
            return Err(Halt::of_run(self.alloc, Fault::FileCount.code()));
        }
        let PrintedBase { kind, side: base } = printed;
        let taking = Taking {
            each: wanted.each,
            keys: HashKeys::random(self.rt),
        };
        let tables = match self.tables_of_kind(taking, &kind, &files.names) {
            Ok(tables) => tables,
            Err(halt) => return Err(halt),
        };
        match side_of_kind(self.alloc, &kind, tables) {
            Ok(other) => Ok(Sides { base, other }),
            Err(_) => Err(Halt::Memory),
        }
    }

    /// The tables of these names, of which the first tells the kind.
    pub(crate) fn printed_base(&self, wanted: Wanted, names: &[Name]) -> Result<PrintedBase, Halt>
        ensures base { IfOk result (IsPrintedBase (S.bytes self.now.source.now)
            wanted.entry.options.now wanted.entry.each names.now) }
        ensures hints { IfOk result (λ base. IsHint base.side.hints.items) }
        ensures stop { IfErr result (OfStop (StopsOneSide (S.bytes self.now.source.now) Printed
            wanted.entry.options.now wanted.entry.each names.now)) }
    {
        if names.len() as u64 >= TABLES {
            return Err(Halt::of_run(self.alloc, Fault::FileCount.code()));
        }
        let Some((name, later)) = names.split_first() else {
            return Err(Halt::of_run(self.alloc, Fault::FileCount.code()));
        };
        let taking = Taking {
            each: wanted.each,
            keys: HashKeys::random(self.rt),
        };
        let first = match self.first_parts(taking.keys, wanted.options, name) {
            Ok(first) => first,
            Err(halt) => return Err(halt),
        };
        let Ok(kind) = first.of_none_beside(self.alloc, taking.keys) else {
            return Err(Halt::Memory);
        };
        let tables = match self.tables_from(taking, first, later) {
            Ok(tables) => tables,
            Err(halt) => return Err(halt),
        };
        match side_of_kind(self.alloc, &kind, tables) {
            Ok(side) => Ok(PrintedBase { kind, side }),
            Err(_) => Err(Halt::Memory),
        }
    }

    // The tables of a first name, and of those behind it.
    fn tables_from(&self, taking: Taking, first: Parts, later: &[Name]) -> Result<Vec<Table>, Halt>
        ensures tables { IfOk result (λ tables. (name : TheName)
            → BeginsWith (S.bytes self.now.source.now) name first
            → AddTo taking.each (S.bytes self.now.source.now) first (name ∷ later.now)
            tables.items) }
        ensures stop { IfErr result (OfStop (λ lines. (name : TheName)
            → BeginsWith (S.bytes self.now.source.now) name first
            → StopsLater (S.bytes self.now.source.now) taking.each first (name ∷ later.now)
            lines)) }
    {
        if taking.each {
            return match self.tables_beside(taking.keys, &first, later) {
                Ok(tables) => with_first(first, tables),
                Err(halt) => Err(halt),
            };
        }
        match self.sum_from(taking.keys, first, later) {
            Ok(sum) => only_sum(self.alloc, sum),
            Err(halt) => Err(halt),
        }
    }

    // The tables of these names, all of this kind.
    fn tables_of_kind(
        &self,
        taking: Taking,
        kind: &Parts,
        names: &[Name],
    ) -> Result<Vec<Table>, Halt>
        ensures tables { IfOk result (λ tables. AddTo taking.each (S.bytes self.now.source.now)
            kind.now names.now tables.items) }
        ensures stop { IfErr result (OfStop (StopsLater (S.bytes self.now.source.now) taking.each
            kind.now names.now)) }
    {
        if taking.each {
            return match self.tables_beside(taking.keys, kind, names) {
                Ok(tables) => Ok(tables),
                Err(halt) => Err(halt),
            };
        }
        match self.sum_beside(taking.keys, kind, names) {
            Ok(sum) => only_sum(self.alloc, sum),
            Err(halt) => Err(halt),
        }
    }
}

// The table of a sum, alone.
fn only_sum(alloc: Global, sum: Parts) -> Result<Vec<Table>, Halt>
    ensures tables { IfOk result (λ tables. tables.items ≡ sum.sum ∷ []) }
    ensures memory { IfErr result (λ halt. halt ≡ Memory) }
{
    let Ok(table) = sum.into_table() else {
        return Err(Halt::Memory);
    };
    match only(alloc, table) {
        Ok(tables) => Ok(tables),
        Err(_) => Err(Halt::Memory),
    }
}

// The table of the first before those behind it.
fn with_first(first: Parts, tables: Vec<Table>) -> Result<Vec<Table>, Halt>
    ensures tables { IfOk result (λ all. all.items ≡ first.sum ∷ tables.items) }
    ensures memory { IfErr result (λ halt. halt ≡ Memory) }
{
    let Ok(table) = first.into_table() else {
        return Err(Halt::Memory);
    };
    let mut all = tables;
    match all.insert(0, table) {
        Ok(()) => Ok(all),
        Err(_) => Err(Halt::Memory),
    }
}

// The side that has these tables, which are of a kind.
fn side_of_kind(alloc: Global, kind: &Parts, tables: Vec<Table>) -> Result<Side, AllocError>
    ensures unit { IfOk result (λ side. side.unit ≡ kind.now.unit) }
    ensures schema { IfOk result (λ side. side.schema ≡ kind.now.sum.schema) }
    ensures tables { IfOk result (λ side. side.tables ≡ tables) }
    ensures lines { IfOk result (λ side. side.said.lines.items ≡ []) }
    ensures hints { IfOk result (λ side. side.hints.items ≡ []) }
{
    Ok(Side {
        unit: kind.unit(),
        schema: kind.schema().try_clone(alloc)?,
        tables,
        said: Said::nothing(alloc),
        hints: Vec::new(alloc),
    })
}
