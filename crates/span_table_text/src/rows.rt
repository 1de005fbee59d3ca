//! Lines of numbers and values, for people.
ghost use Rattle.std.specs.Prelude.{◌≡◌, ◌++◌, flat_map, map, string_bytes, IfOk, OnOk};
ghost use Rattle.json.specs.Print.{escape, print, quoted};
ghost use Rattle.span_table_text.specs.{Bytes, Lines.kept_text, Rows.{cells_text, number_cell, number_title, row_line, then_title, then_value, titles_line, value_cell}};

use crate::lines::put_right;
use span_event::ArgValue;
use span_report::json_text;
use span_table::{Column, Key, Number, Sums};
use std::alloc::{AllocError, Global};
use std::marker::Model;

/// A number, or a title of numbers, right in a column of this width.
#[derive(Drop)]
pub struct Cell {
    width: usize,
    word: String,
}

impl Model for Cell {
    ghost use Rattle.std.specs.Prelude.{string_bytes};
    ghost use Rattle.span_table_text.specs.Rows as rows;

    ghost Value = { rows.Cell };

    ghost view = { λ c. record { width = c.width; word = string_bytes c.word } };
}

impl Cell {
    pub fn new(width: usize, word: String) -> Cell
        ensures { result ≡ record { width = width; word = string_bytes word } }
    {
        Cell { width, word }
    }

    /// A word in a column of a number.
    pub fn of(number: Number, word: String) -> Cell
        ensures { result ≡ number_cell number (string_bytes word) }
    {
        Cell {
            width: number.width(),
            word,
        }
    }
}

/// The titles of numbers.
pub fn number_titles(alloc: Global, numbers: &[Number]) -> Result<Vec<Cell>, AllocError>
    ensures { IfOk result (λ cells. cells.items ≡ map number_title numbers.now) }
{
    let mut cells = Vec::with_capacity(alloc, numbers.len())?;
    for number in numbers {
        let word = String::from_str(alloc, number.name())?;
        cells.push(Cell::of(*number, word))?;
    }
    Ok(cells)
}

/// These numbers of a row.
pub fn value_cells(alloc: Global, numbers: &[Number], sums: &Sums) -> Result<Vec<Cell>, AllocError>
    ensures { IfOk result (λ cells. cells.items ≡ map (value_cell sums.now) numbers.now) }
{
    let mut cells = Vec::with_capacity(alloc, numbers.len())?;
    for number in numbers {
        let value = sums.by(*number);
        cells.push(Cell::of(*number, format!(in alloc; "{value}")?))?;
    }
    Ok(cells)
}

/// Appends the titles of numbers, and then those of columns.
#[tactic(auto, using(std::proofs::Common::append_assoc), unfolding(crate::specs::Rows::titles_line))]
pub fn put_titles(
    alloc: Global,
    out: &mut String,
    cells: &[Cell],
    columns: &[Column],
) -> Result<(), AllocError>
    ensures { OnOk result (string_bytes out.new
        ≡ string_bytes out.old ++ titles_line cells.now columns.now) }
{
    put_cells(out, cells)?;
    put_names(alloc, out, columns)?;
    out.push('\n')
}

/// Appends numbers, and then the values of a key.
#[tactic(auto, using(std::proofs::Common::append_assoc), unfolding(crate::specs::Rows::row_line))]
pub fn put_row(alloc: Global, out: &mut String, cells: &[Cell], key: &Key) -> Result<(), AllocError>
    ensures { OnOk result (string_bytes out.new
        ≡ string_bytes out.old ++ row_line cells.now key.now) }
{
    put_cells(out, cells)?;
    put_values(alloc, out, key.values())?;
    out.push('\n')
}

// Appends cells with a blank between them.
fn put_cells(out: &mut String, cells: &[Cell]) -> Result<(), AllocError>
    ensures { OnOk result (string_bytes out.new ≡ string_bytes out.old ++ cells_text cells.now) }
{
    let Some((first, later)) = cells.split_first() else {
        return Ok(());
    };
    put_right(out, first.width, &first.word)?;
    for cell in later {
        out.push(' ')?;
        put_right(out, cell.width, &cell.word)?;
    }
    Ok(())
}

// Appends each value of a key, with a blank before it.
fn put_values(
    alloc: Global,
    out: &mut String,
    values: &[Option<ArgValue>],
) -> Result<(), AllocError>
    ensures { OnOk result (string_bytes out.new
        ≡ string_bytes out.old ++ flat_map then_value values.now) }
{
    for value in values {
        put_value(alloc, out, value)?;
    }
    Ok(())
}

#[tactic(auto, unfolding(crate::specs::Lines::value_text))]
fn put_value(alloc: Global, out: &mut String, value: &Option<ArgValue>) -> Result<(), AllocError>
    ensures { OnOk result (string_bytes out.new ≡ string_bytes out.old ++ then_value value.now) }
{
    out.push(' ')?;
    match value {
        None => out.push('-'),
        Some(value) => put_kept(alloc, out, value),
    }
}

// Appends a value that is there: as JSON, `...` for one that isn't kept.
#[tactic(auto, unfolding(json::specs::Print::print_from, span_report::specs::Lines::json_text_of))]
fn put_kept(alloc: Global, out: &mut String, value: &ArgValue) -> Result<(), AllocError>
    ensures { OnOk result (string_bytes out.new ≡ string_bytes out.old ++ kept_text value.now) }
{
    match value {
        ArgValue::Nil => out.push_str("null"),
        ArgValue::Flag(true) => out.push_str("true"),
        ArgValue::Flag(false) => out.push_str("false"),
        ArgValue::Whole(number) => {
            let number = *number;
            write!(out, "{number}")
        }
        ArgValue::Words(text) => out.push_str(json_text(alloc, text)?.as_str()),
        ArgValue::Other => out.push_str("..."),
    }
}

// Appends the name of each column, with a blank before it.
fn put_names(alloc: Global, out: &mut String, columns: &[Column]) -> Result<(), AllocError>
    ensures { OnOk result (string_bytes out.new
        ≡ string_bytes out.old ++ flat_map then_title columns.now) }
{
    for column in columns {
        put_name(alloc, out, column)?;
    }
    Ok(())
}

#[tactic(auto, unfolding(crate::specs::Lines::column_title, span_report::specs::Lines::json_text_of))]
fn put_name(alloc: Global, out: &mut String, column: &Column) -> Result<(), AllocError>
    ensures { OnOk result (string_bytes out.new ≡ string_bytes out.old ++ then_title column.now) }
{
    let json = json_text(alloc, &column.name(alloc)?)?;
    out.push(' ')?;
    out.push_str(unquoted(json.as_str()))
}

// A JSON text without its quotes.
fn unquoted(json: &str) -> &str
    ensures { (text : Bytes) → json.now ≡ quoted text → result.now ≡ escape text }
{
    let Some(rest) = json.strip_prefix('"') else {
        return json;
    };
    let Some(inner) = rest.strip_suffix('"') else {
        return rest;
    };
    inner
}
