//! What a sum has of its parts: which columns, and which numbers.
ghost use Rattle.std.specs.List.{list_all};
ghost use Rattle.std.specs.Prelude.{◌≡◌, ◌≢◌, ◌↔◌, ◌<◌, ℕ, length, slice_get, IfNone, IfOk, IfSome, IsTrue, Some};
ghost use Rattle.span_parts.specs.{has_number};
ghost use Rattle.span_parts.specs.Sum.{FindsPlaces, chosen, named_or_all};

use span_table::{Column, Number, Schema, are_same, copies_of, has_number};
use span_table_text::AskedNumbers;
use std::alloc::{AllocError, Global};
use std::marker::Model;

/// What is asked of parts: the columns that are shown, all where none is named, those that conditions test, and the numbers.
#[derive(Drop)]
pub struct Asked<'a> {
    pub shown: &'a [Column],
    pub tested: &'a [Column],
    pub numbers: &'a AskedNumbers,
}

impl<'a> Model for Asked<'a> {
    ghost use Rattle.span_parts.specs.Sum as sum;

    ghost Value = { sum.Asked };

    ghost view = { λ a. record { shown = a.shown.now; tested = a.tested.now; numbers = a.numbers.now } };
}

/// What is chosen of the rows of parts: the values at these places of their keys, and these numbers.
#[derive(Drop)]
pub(crate) struct RowChoice<'a> {
    pub(crate) places: &'a [usize],
    pub(crate) numbers: &'a [Number],
}

impl<'a> Model for RowChoice<'a> {
    ghost use Rattle.span_parts.specs.{Choice};

    ghost Value = { Choice };

    ghost view = { λ c. record { places = c.places.now; numbers = c.numbers.now } };
}

impl<'a> RowChoice<'a> {
    pub(crate) fn of(places: &'a [usize], numbers: &'a [Number]) -> RowChoice<'a>
        ensures { result ≡ record { places = places.entry.now; numbers = numbers.entry.now } }
    {
        RowChoice { places, numbers }
    }
}

/// The columns that are asked for: those that are shown, or all where none is named, and behind them those that conditions test.
pub(crate) fn chosen(
    alloc: Global,
    shown: &[Column],
    tested: &[Column],
    columns: &[Column],
) -> Result<Vec<Column>, AllocError>
    ensures { IfOk result (λ all. all.items ≡ chosen shown.now tested.now columns.now) }
{
    let mut chosen = copies_of(alloc, named_or_all(shown, columns))?;
    for column in tested {
        chosen.push(column.try_clone(alloc)?)?;
    }
    Ok(chosen)
}

fn named_or_all<'a>(named: &'a [Column], columns: &'a [Column]) -> &'a [Column]
    ensures { result.now ≡ named_or_all named.now columns.now }
{
    if named.is_empty() { columns } else { named }
}

/// Where each of these columns stands among those. None where one doesn't.
pub(crate) fn places_of(
    alloc: Global,
    wanted: &[Column],
    columns: &[Column],
) -> Result<Option<Vec<usize>>, AllocError>
    ensures { IfOk result (FindsPlaces wanted.now columns.now) }
{
    let mut places = Vec::with_capacity(alloc, wanted.len())?;
    for column in wanted {
        let Some(place) = place_of(columns, column) else {
            return Ok(None);
        };
        places.push(place)?;
    }
    Ok(Some(places))
}

// Where this column stands.
fn place_of(columns: &[Column], column: &Column) -> Option<usize>
    ensures there { IfSome result (λ place. slice_get columns.now place ≡ Some column.now) }
    ensures bound { IfSome result (λ place. place < length columns.now) }
    ensures missing { IfNone result ((place : ℕ) → slice_get columns.now place ≢ Some column.now) }
{
    let (first, others) = columns.split_first()?;
    if is_same(first, column) {
        return Some(0);
    }
    match place_of(others, column) {
        Some(place) => Some(place + 1),
        None => None,
    }
}

fn is_same(one: &Column, other: &Column) -> bool
    ensures { IsTrue result ↔ one.now ≡ other.now }
{
    one == other
}

/// Whether both schemas are the same.
pub(crate) fn is_same_schema(schema: &Schema, other: &Schema) -> bool
    ensures { IsTrue result ↔ schema.now ≡ other.now }
{
    schema.of == other.of
        && are_same_columns(&schema.columns, &other.columns)
        && are_same_numbers(&schema.numbers, &other.numbers)
}

fn are_same_numbers(numbers: &[Number], others: &[Number]) -> bool
    ensures { IsTrue result ↔ numbers.now ≡ others.now }
{
    are_same(numbers, others)
}

fn are_same_columns(columns: &[Column], others: &[Column]) -> bool
    ensures { IsTrue result ↔ columns.now ≡ others.now }
{
    let Some((column, columns)) = columns.split_first() else {
        return others.is_empty();
    };
    let Some((other, others)) = others.split_first() else {
        return false;
    };
    is_same(column, other) && are_same_columns(columns, others)
}

/// Whether all of these numbers are among those.
pub(crate) fn are_among(numbers: &[Number], all: &[Number]) -> bool
    ensures { result ≡ list_all (has_number all.now) numbers.now }
{
    numbers.iter().all(|number| has_number(all, *number))
}

pub(crate) fn copy_of_places(alloc: Global, places: &[usize]) -> Result<Vec<usize>, AllocError>
    ensures { IfOk result (λ copy. copy.items ≡ places.now) }
{
    let mut copy = Vec::new(alloc);
    copy.extend_from_slice(places)?;
    Ok(copy)
}

pub(crate) fn copy_of_numbers(alloc: Global, numbers: &[Number]) -> Result<Vec<Number>, AllocError>
    ensures { IfOk result (λ copy. copy.items ≡ numbers.now) }
{
    let mut copy = Vec::new(alloc);
    copy.extend_from_slice(numbers)?;
    Ok(copy)
}
