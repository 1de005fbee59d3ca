//! The tables that a text is made of: those of one side, or of two.
ghost use Rattle.std.specs.Prelude.{IfErr, IfOk};
ghost use Rattle.span_tasks.specs.{AreGathered, IsHint, shortened, OfStop, StopsAmong, Sides.{AreBothGathered, AreOptions, AreSides, ComeTo, IsGathered, IsOneSide, StopSides, StopsOneSide}, Summed.summed_of};

use crate::place::Place;
use crate::side::{Apart, Side};
use span_collect::Settings;
use span_request::{Items, TableOptions};
use span_runs::{Halt, Listed, Source};
use std::random::RandomSource;
use std::sync::Wait;
use std::thread::Threads;

/// What tables are gathered: of what, in how many jobs, and whether these put them in order; by what, and whether a table of each is wanted
/// or one of all.
#[derive(Clone, Copy)]
pub(crate) struct Wanted<'a> {
    pub(crate) items: Items,
    pub(crate) jobs: Option<u32>,
    pub(crate) sort: bool,
    pub(crate) options: &'a TableOptions,
    pub(crate) each: bool,
}

/// What is compared, and what it is compared with.
#[derive(Drop)]
pub(crate) struct Sides {
    pub(crate) base: Side,
    pub(crate) other: Side,
}

impl<'a, R: Threads + Wait + RandomSource + Sync, S: Source + Sync> Place<'a, R, S> {
    /// The tables of what is named.
    pub(crate) fn one_side(&self, wanted: Wanted, files: &Listed) -> Result<Side, Halt>
        ensures side { IfOk result (IsOneSide (S.bytes self.now.source.now) wanted.entry.items
            wanted.entry.options.now wanted.entry.each files.now) }
        ensures hints { IfOk result (λ side. IsHint side.hints.items) }
        ensures stop { IfErr result (OfStop (StopsOneSide (S.bytes self.now.source.now) wanted.entry.items
            wanted.entry.options.now wanted.entry.each files.now.names.items)) }
    {
        let side = match self.gathered_side(wanted, files) {
            Ok(side) => side,
            Err(halt) => return Err(halt),
        };
        match self.narrowed(wanted, side) {
            Ok(side) => Ok(side),
            Err(_) => Err(Halt::Memory),
        }
    }

    // The tables of what is named, as they are gathered.
    fn gathered_side(&self, wanted: Wanted, files: &Listed) -> Result<Side, Halt>
        ensures side { IfOk result (IsGathered (S.bytes self.now.source.now) wanted.entry.items
            wanted.entry.options.now wanted.entry.each files.now) }
        ensures hints { IfOk result (λ side. IsHint side.hints.items) }
        ensures stop { IfErr result (OfStop (StopsOneSide (S.bytes self.now.source.now) wanted.entry.items
            wanted.entry.options.now wanted.entry.each files.now.names.items)) }
    {
        match wanted.items {
            Items::Together(settings) => match self.run_side(
                &settings,
                wanted.options,
                &files.names,
            ) {
                Ok(side) => Ok(side),
                Err(halt) => Err(halt),
            },
            Items::Apart(settings) => match self.apart_side(settings, wanted, files) {
                Ok(side) => Ok(side),
                Err(halt) => Err(halt),
            },
            Items::Printed => match self.printed_base(wanted, &files.names) {
                Ok(printed) => Ok(printed.side),
                Err(halt) => Err(halt),
            },
        }
    }

    // The tables of files each of which is a run of its own.
    fn apart_side(&self, settings: Settings, wanted: Wanted, files: &Listed) -> Result<Side, Halt>
        ensures side { IfOk result (λ side. AreOptions settings wanted.entry.options.now side
            × AreGathered (S.bytes self.now.source.now) files.now.names.items settings
            (λ runs. shortened files.now.cut (ComeTo wanted.entry.each
            (summed_of wanted.entry.options.now)) runs side.tables.items) side.said) }
        ensures hints { IfOk result (λ side. IsHint side.hints.items) }
        ensures stop { IfErr result
            (OfStop (StopsAmong (S.bytes self.now.source.now) settings files.now.names.items)) }
    {
        let apart = Apart {
            settings,
            jobs: wanted.jobs,
            sort: wanted.sort,
        };
        if wanted.each {
            return self.each_side(&apart, wanted.options, files);
        }
        self.sum_side(&apart, wanted.options, files)
    }

    /// The tables of the base, and then those of the others, of the same kind.
    pub(crate) fn both_sides(
        &self,
        wanted: Wanted,
        base: &Listed,
        files: &Listed,
    ) -> Result<Sides, Halt>
        ensures sides { IfOk result (λ sides. AreSides (S.bytes self.now.source.now) wanted.entry.items
            wanted.entry.options.now wanted.entry.each base.now files.now sides.base sides.other) }
        ensures base_hints { IfOk result (λ sides. IsHint sides.base.hints.items) }
        ensures hints { IfOk result (λ sides. IsHint sides.other.hints.items) }
        ensures stop { IfErr result (OfStop (StopSides (S.bytes self.now.source.now) wanted.entry.items
            wanted.entry.options.now wanted.entry.each base.now files.now)) }
    {
        let Sides { base, other } = match self.gathered_sides(wanted, base, files) {
            Ok(sides) => sides,
            Err(halt) => return Err(halt),
        };
        let Ok(base) = self.narrowed(wanted, base) else {
            return Err(Halt::Memory);
        };
        let Ok(other) = self.narrowed(wanted, other) else {
            return Err(Halt::Memory);
        };
        Ok(Sides { base, other })
    }

    // Both sides as they are gathered.
    fn gathered_sides(&self, wanted: Wanted, base: &Listed, files: &Listed) -> Result<Sides, Halt>
        ensures sides { IfOk result (λ sides. AreBothGathered (S.bytes self.now.source.now) wanted.entry.items
            wanted.entry.options.now wanted.entry.each base.now files.now sides.base sides.other) }
        ensures base_hints { IfOk result (λ sides. IsHint sides.base.hints.items) }
        ensures hints { IfOk result (λ sides. IsHint sides.other.hints.items) }
        ensures stop { IfErr result (OfStop (StopSides (S.bytes self.now.source.now) wanted.entry.items
            wanted.entry.options.now wanted.entry.each base.now files.now)) }
    {
        if let Items::Printed = wanted.items {
            return self.printed_sides(wanted, base, files);
        }
        let base = match self.gathered_side(wanted, base) {
            Ok(base) => base,
            Err(halt) => return Err(halt),
        };
        match self.gathered_side(wanted, files) {
            Ok(other) => Ok(Sides { base, other }),
            Err(Halt::Memory) => Err(Halt::Memory),
            Err(Halt::Stopped(stop)) => match base.before(stop) {
                Ok(stop) => Err(Halt::Stopped(stop)),
                Err(_) => Err(Halt::Memory),
            },
        }
    }
}
