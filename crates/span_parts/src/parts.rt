//! Parts that are added.
ghost use Rattle.std.specs.Prelude.{◌↔◌, ◌≡◌, IfErr, IfNone, IfOk, IfSome, IsTrue};
ghost use Rattle.span_parts.specs.{Bytes, Choice as TheChoice, schema_by, First.{Begins, MayBegin}, Sum.{ChoosesOf, FirstFails, JoinsParts, PartFails, RefusesOthers, TakesFirst, TakesNone, TakesPart}};

use crate::choice::{
    Asked, RowChoice, are_among, chosen, copy_of_numbers, copy_of_places, is_same_schema, places_of,
};
use crate::fault::PartFault;
use crate::guess::FirstLine;
use crate::heads::begin;
use crate::room::LineRoom;
use crate::sums::{add_part, look_through};
use span_event::Unit;
use span_names::HashKeys;
use span_table::{Schema, Table, TableSum};
use std::alloc::{AllocError, Global};
use std::marker::Model;

/// The sum of parts of the same schema and unit, of which some columns and numbers may be dropped.
#[derive(Drop)]
pub struct Parts {
    // The unit of each part.
    unit: Unit,
    // The schema of each part.
    schema: Schema,
    // Which of its columns the sum has, in its order.
    places: Vec<usize>,
    sum: TableSum,
}

impl Model for Parts {
    ghost use Rattle.span_parts.specs.Sum.{IsByThese, PartSum};

    ghost Value = { PartSum };

    ghost view = { λ p. record { unit = p.unit; schema = p.schema; choice = record { places = p.places.items; numbers = p.sum.table.schema.numbers }; sum = p.sum.table } };

    ghost invariant = { λ p. IsByThese p.schema (record { places = p.places.items; numbers = p.sum.table.schema.numbers }) p.sum.table };
}

impl Parts {
    /// The sum of the one part that this text is, with what is asked for of its columns and numbers, in any order. Maps that files fill
    /// are hashed by these keys.
    pub fn of_first(
        alloc: Global,
        keys: HashKeys,
        asked: &Asked,
        text: &[u8],
    ) -> Result<Parts, PartFault>
        ensures sum { IfOk result (TakesFirst asked.now text.now) }
        ensures fault { IfErr result (FirstFails asked.now text.now) }
    {
        let mut room = LineRoom::new(alloc);
        let (first, rest) = match begin(alloc, text, &mut room) {
            Ok(begun) => begun,
            Err(fault) => return Err(fault),
        };
        let taken = match taken_of(alloc, asked, &first.schema) {
            Ok(Some(taken)) => taken,
            Ok(None) => return Err(fault_of_others(alloc, &first, rest, &mut room)),
            Err(_) => return Err(PartFault::Memory),
        };
        let schema = taken.schema;
        let numbers = match copy_of_numbers(alloc, &schema.numbers) {
            Ok(numbers) => numbers,
            Err(_) => return Err(PartFault::Memory),
        };
        let sum = TableSum::new(alloc, keys, schema);
        let choice = RowChoice::of(&taken.places, &numbers);
        match add_part(alloc, &choice, &first, rest, sum, &mut room) {
            Ok(sum) => Ok(Parts {
                unit: first.unit,
                schema: first.schema,
                places: taken.places,
                sum,
            }),
            Err(fault) => Err(fault),
        }
    }

    /// The sum of no parts, which are to have the schema and unit of these.
    pub fn of_none_beside(&self, alloc: Global, keys: HashKeys) -> Result<Parts, AllocError>
        ensures { IfOk result (TakesNone self.now) }
    {
        Ok(Parts {
            unit: self.unit,
            schema: self.schema.try_clone(alloc)?,
            places: copy_of_places(alloc, &self.places)?,
            sum: TableSum::new(alloc, keys, self.sum.schema().try_clone(alloc)?),
        })
    }

    /// With the part that this text is.
    pub fn add(self, alloc: Global, text: &[u8]) -> Result<Parts, PartFault>
        ensures sum { IfOk result (TakesPart text.now self) }
        ensures fault { IfErr result (PartFails self.schema self.unit text.now) }
    {
        let mut room = LineRoom::new(alloc);
        let (first, rest) = match begin(alloc, text, &mut room) {
            Ok(begun) => begun,
            Err(fault) => return Err(fault),
        };
        if !is_alike(&first, &self.schema, self.unit) {
            return Err(fault_of_others(alloc, &first, rest, &mut room));
        }
        let sum = self.sum;
        let numbers = match copy_of_numbers(alloc, &sum.schema().numbers) {
            Ok(numbers) => numbers,
            Err(_) => return Err(PartFault::Memory),
        };
        let choice = RowChoice::of(&self.places, &numbers);
        match add_part(alloc, &choice, &first, rest, sum, &mut room) {
            Ok(sum) => Ok(Parts { sum, ..self }),
            Err(fault) => Err(fault),
        }
    }

    /// The same sum, its rows put in order. To join such a sum with another takes no look-up and no sorting.
    pub fn in_order(self) -> Result<Parts, AllocError>
        ensures { IfOk result (λ parts. parts ≡ self) }
    {
        let sum = self.sum.in_order()?;
        Ok(Parts { sum, ..self })
    }

    /// With the parts of another sum, of the same schema and unit, of which the same is chosen. It costs what `TableSum::join` does.
    pub fn join(self, other: Parts) -> Result<Parts, PartFault>
        ensures { IfOk result (JoinsParts self other) }
    {
        let sum = self.sum.join(other.sum)?;
        Ok(Parts { sum, ..self })
    }

    /// That of the sum.
    pub fn schema(&self) -> &Schema
        ensures { result.now ≡ self.now.sum.schema }
    {
        self.sum.schema()
    }

    /// That of each part, and so of the sum.
    pub fn unit(&self) -> Unit
        ensures { result ≡ self.now.unit }
    {
        self.unit
    }

    /// The table of the sum.
    pub fn into_table(self) -> Result<Table, AllocError>
        ensures { IfOk result (λ table. table ≡ self.sum) }
    {
        self.sum.into_table()
    }
}

// What is taken of parts of a schema: the columns at these places, and the schema of the sum.
#[derive(Drop)]
struct Taken {
    places: Vec<usize>,
    schema: Schema,
}

// What is asked for of a schema. None where it lacks a column or a number.
fn taken_of(alloc: Global, asked: &Asked, schema: &Schema) -> Result<Option<Taken>, AllocError>
    ensures is { IfOk result (λ found. IfSome found (λ taken. ChoosesOf asked.now schema.now
        (record { places = taken.places.items; numbers = taken.schema.numbers }))) }
    ensures by { IfOk result (λ found. IfSome found (λ taken. taken.schema ≡ schema_by
        (record { places = taken.places.items; numbers = taken.schema.numbers }) schema.now)) }
    ensures none { IfOk result (λ found. IfNone found
        ((choice : TheChoice) → ChoosesOf asked.now schema.now choice → ⊥)) }
{
    let columns = chosen(alloc, asked.shown, asked.tested, &schema.columns)?;
    let numbers = asked.numbers.shown(alloc, schema.of, &schema.numbers)?;
    if !are_among(&numbers, &schema.numbers) {
        return Ok(None);
    }
    match places_of(alloc, &columns, &schema.columns)? {
        Some(places) => Ok(Some(Taken {
            places,
            schema: Schema {
                of: schema.of,
                columns,
                numbers,
            },
        })),
        None => Ok(None),
    }
}

// Whether a part that begins so has this schema and unit.
fn is_alike(first: &FirstLine, schema: &Schema, unit: Unit) -> bool
    ensures { IsTrue result ↔ (first.now.schema ≡ schema.now) × (first.now.unit ≡ unit) }
{
    first.unit == unit && is_same_schema(&first.schema, schema)
}

// Why a text that begins so is refused: for its schema or its unit, if it is a part.
fn fault_of_others(alloc: Global, first: &FirstLine, rest: &str, room: &mut LineRoom) -> PartFault
    requires { MayBegin first.now.schema first.now.rows first.now.counts }
    ensures { (text : Bytes) → Begins text first.now rest.now
        → RefusesOthers first.now.schema first.now.unit text result }
{
    match look_through(alloc, first, rest, room) {
        Ok(()) => PartFault::OtherColumns,
        Err(fault) => fault,
    }
}
