//! What a line would have to be, if a table was printed. It is printed again and compared, so an answer needs no trust; that none is
//! missed is what the contracts say.
ghost use Rattle.std.specs.{Fmt.signed_decimal, Int.w64, Prelude.{◌≡◌, ◌≢◌, ◌<◌, ◌^◌, ◌++◌, ◌∷◌, [], ℕ, ℤ, FitsSigned, List, None, Some, true, codes, map, IfOk}};
ghost use Rattle.json.specs.{Reads.token_of, Token.{Token as TheToken, end_array, key, string}};
ghost use Rattle.span_table.specs.Sums.{no_sums};
ghost use Rattle.span_parts.specs.{Bytes, ArgValue as TheValue, Whole, Unit as TheUnit, Column as TheColumn, TableCounts as TheCounts, Number as TheNumber, Of as TheOf, Sums as TheSums, Row as TheRow, Schema as TheSchema, column_name, counts_fit, fit, number_name, only, TableKey, AreDistinct, AreNumbers, IsKeyOf, IsOfArgument, IsRowOf, IsSchema, entry_counts_tokens, head_tokens, key_tokens, list_tokens, name_tokens, number_tokens, numbers_tokens, of_tokens, row_tokens, sums_tokens, unit_tokens, value_tokens, First.{MayBegin, Says}, Guess.{Finds, Found, MayFollow, MayFollowNumbers, Remains}};

use crate::heads::MOST_COLUMNS;
use crate::tokens::{after_one, key_after, number_after, text_after};
use json::Token;
use span_event::{ArgValue, Text, Unit};
use span_table::{
    Audience, Column, EntryCounts, Key, Number, Of, Row, Schema, Sums, TableCounts, has_number,
};
use std::alloc::{AllocError, Global};

/// What a first line says: the schema, the unit, the number of rows and the counts.
#[derive(Drop)]
pub(crate) struct FirstLine {
    pub(crate) schema: Schema,
    pub(crate) unit: Unit,
    pub(crate) rows: u64,
    pub(crate) counts: TableCounts,
}

pub(crate) fn first_line_of(
    alloc: Global,
    tokens: &[Token],
) -> Result<Option<FirstLine>, AllocError>
    ensures { IfOk result (λ found.
        (schema : TheSchema) (unit : TheUnit) (rows : ℕ) (counts : TheCounts)
        → MayBegin schema rows counts
        → map token_of tokens.now ≡ head_tokens schema unit rows counts
        → Says schema unit rows counts found) }
{
    let mut columns = Vec::new(alloc);
    let Some((of, rest)) = of_after(tokens) else {
        return Ok(None);
    };
    let Some((unit, rest)) = unit_after(rest) else {
        return Ok(None);
    };
    let Some(rest) = put_columns(alloc, rest, &mut columns)? else {
        return Ok(None);
    };
    let Some(rest) = after_one(rest) else {
        return Ok(None);
    };
    let mut numbers = Vec::new(alloc);
    let Some(rest) = put_list(of, rest, &mut numbers)? else {
        return Ok(None);
    };
    match numbers_of(rest) {
        Some((rows, counts)) => Ok(Some(FirstLine {
            schema: Schema {
                of,
                columns,
                numbers,
            },
            unit,
            rows,
            counts,
        })),
        None => Ok(None),
    }
}

// What is summed, as is said behind `{"tracebook":1`, and what is behind that.
fn of_after<'t, 'a>(tokens: &'t [Token<'a>]) -> Option<(Of, &'t [Token<'a>])>
    ensures { (of : TheOf) (unit : TheUnit) (a b c : TheToken) (rest : List TheToken)
        → map token_of tokens.now
        ≡ a ∷ b ∷ c ∷ (of_tokens of ++ (unit_tokens unit ++ key (codes "columns") ∷ rest))
        → Finds of (unit_tokens unit ++ key (codes "columns") ∷ rest) result }
{
    let version = after_one(after_one(after_one(tokens)?)?)?;
    match key_after(version, "of") {
        Some(rest) => Some((Of::Async, after_one(rest)?)),
        None => Some((Of::Spans, version)),
    }
}

// The unit that is said next, and what is behind `"columns":[`.
fn unit_after<'t, 'a>(tokens: &'t [Token<'a>]) -> Option<(Unit, &'t [Token<'a>])>
    ensures { (unit : TheUnit) (array : TheToken) (rest : List TheToken)
        → map token_of tokens.now ≡ unit_tokens unit ++ key (codes "columns") ∷ array ∷ rest
        → Finds unit rest result }
{
    let (unit, rest) = match key_after(tokens, "unit") {
        Some(rest) => (Unit::Nanoseconds, after_one(rest)?),
        None => (Unit::Microseconds, tokens),
    };
    Some((unit, after_one(after_one(rest)?)?))
}

// Adds columns of these names, but not more than may be, and gives the tokens behind them.
fn put_columns<'t, 'a>(
    alloc: Global,
    tokens: &'t [Token<'a>],
    columns: &mut Vec<Column>,
) -> Result<Option<&'t [Token<'a>]>, AllocError>
    ensures { IfOk result (λ left. (later : List TheColumn) (rest : List TheToken)
        → MayFollow columns.old.items later
        → map token_of tokens.now ≡ name_tokens later ++ end_array ∷ rest
        → Remains (end_array ∷ rest) left × (columns.new.items ≡ columns.old.items ++ later)) }
{
    if columns.len() > MOST_COLUMNS {
        return Ok(None);
    }
    let Some((name, rest)) = text_after(tokens) else {
        return Ok(Some(tokens));
    };
    let Some(column) = Column::named(alloc, name)? else {
        return Ok(None);
    };
    columns.push(column)?;
    match put_columns(alloc, rest, columns) {
        Ok(left) => Ok(left),
        Err(refused) => Err(refused),
    }
}

// Takes the numbers of a table's rows, the usual ones where no list is next, and gives the tokens behind the list.
fn put_list<'t, 'a>(
    of: Of,
    tokens: &'t [Token<'a>],
    numbers: &mut Vec<Number>,
) -> Result<Option<&'t [Token<'a>]>, AllocError>
    requires { numbers.old.items ≡ [] }
    ensures { IfOk result (λ left. (schema : TheSchema) (rest : List TheToken)
        → schema.of ≡ of → AreNumbers of schema.numbers
        → map token_of tokens.now ≡ list_tokens schema (key (codes "rows") ∷ rest)
        → Remains (key (codes "rows") ∷ rest) left × (numbers.new.items ≡ schema.numbers)) }
{
    let Some(list) = key_after(tokens, "numbers") else {
        numbers.extend_from_slice(of.numbers(Audience::Programs))?;
        return Ok(Some(tokens));
    };
    let Some(names) = after_one(list) else {
        return Ok(None);
    };
    match put_named(names, numbers)? {
        Some(rest) => Ok(after_one(rest)),
        None => Ok(None),
    }
}

// Adds numbers of these names, none twice, and gives the tokens behind them.
fn put_named<'t, 'a>(
    tokens: &'t [Token<'a>],
    numbers: &mut Vec<Number>,
) -> Result<Option<&'t [Token<'a>]>, AllocError>
    ensures { IfOk result (λ left. (later : List TheNumber) (rest : List TheToken)
        → MayFollowNumbers numbers.old.items later
        → map token_of tokens.now ≡ map string (map number_name later) ++ end_array ∷ rest
        → Remains (end_array ∷ rest) left × (numbers.new.items ≡ numbers.old.items ++ later)) }
{
    let Some((name, rest)) = text_after(tokens) else {
        return Ok(Some(tokens));
    };
    let Some(number) = Number::named(name) else {
        return Ok(None);
    };
    if has_number(numbers, number) {
        return Ok(None);
    }
    numbers.push(number)?;
    match put_named(rest, numbers) {
        Ok(left) => Ok(left),
        Err(refused) => Err(refused),
    }
}

fn numbers_of(tokens: &[Token]) -> Option<(u64, TableCounts)>
    ensures { (rows : ℕ) (counts : TheCounts) (rest : List TheToken)
        → rows < 2 ^ 64 → counts_fit counts ≡ true
        → map token_of tokens.now ≡ numbers_tokens rows counts ++ rest
        → result ≡ Some (rows, counts) }
{
    let (rows, rest) = number_after(tokens, "rows")?;
    let (runs, rest) = number_after(rest, "runs")?;
    let (files, rest) = number_after(rest, "files")?;
    let (unread, rest) = number_after(rest, "unread")?;
    let counts = TableCounts {
        runs: u128::from(runs),
        files: u128::from(files),
        unread: u128::from(unread),
        entries: entry_counts_of(rest)?,
    };
    Some((rows, counts))
}

fn entry_counts_of(tokens: &[Token]) -> Option<EntryCounts>
    ensures { (counts : TheCounts) (rest : List TheToken) → counts_fit counts ≡ true
        → map token_of tokens.now ≡ entry_counts_tokens counts.entries ++ rest
        → result ≡ Some counts.entries }
{
    let (accepted, rest) = number_after(tokens, "events")?;
    let (refused, rest) = number_after(rest, "refused")?;
    let (skipped, rest) = number_after(rest, "skipped")?;
    let (queries, rest) = number_after(rest, "queries")?;
    let (seals, _) = number_after(rest, "seals")?;
    Some(EntryCounts {
        accepted: u128::from(accepted),
        refused: u128::from(refused),
        skipped: u128::from(skipped),
        queries: u128::from(queries),
        seals: u128::from(seals),
    })
}

/// The row of a table with these numbers, by columns of these names.
pub(crate) fn row_of(
    alloc: Global,
    numbers: &[Number],
    names: &[Text],
    tokens: &[Token],
) -> Result<Option<Row>, AllocError>
    ensures { IfOk result (λ found. (schema : TheSchema) (row : TheRow)
        → IsSchema schema → IsRowOf schema row → numbers.now ≡ schema.numbers
        → names.now ≡ map column_name schema.columns
        → map token_of tokens.now ≡ row_tokens schema row → found ≡ Some row) }
{
    let Some(members) = after_one(tokens) else {
        return Ok(None);
    };
    let (key, rest) = key_of(alloc, names, members)?;
    let mut sums = Sums::of_none();
    match put_sums(numbers, rest, &mut sums) {
        Some(_) => Ok(Some(Row { key, sums })),
        None => Ok(None),
    }
}

// A value for each name, and the tokens behind them.
fn key_of<'t, 'a>(
    alloc: Global,
    names: &[Text],
    tokens: &'t [Token<'a>],
) -> Result<(Key, &'t [Token<'a>]), AllocError>
    ensures { IfOk result (λ found. (first : TheNumber) (columns : List TheColumn)
        (values : TableKey) (rest : List TheToken)
        → AreDistinct names.now → IsKeyOf columns values → names.now ≡ map column_name columns
        → map token_of tokens.now ≡ key_tokens columns values ++ key (number_name first) ∷ rest
        → Found values (key (number_name first) ∷ rest) found) }
{
    let mut values = Vec::with_capacity(alloc, names.len())?;
    let rest = put_values(alloc, names, tokens, &mut values)?;
    Ok((Key::of(values), rest))
}

fn put_values<'t, 'a>(
    alloc: Global,
    names: &[Text],
    tokens: &'t [Token<'a>],
    values: &mut Vec<Option<ArgValue>>,
) -> Result<&'t [Token<'a>], AllocError>
    ensures { IfOk result (λ left. (first : TheNumber) (columns : List TheColumn)
        (more : TableKey) (rest : List TheToken)
        → AreDistinct names.now → IsKeyOf columns more → names.now ≡ map column_name columns
        → map token_of tokens.now ≡ key_tokens columns more ++ key (number_name first) ∷ rest
        → Found (values.old.items ++ more) (key (number_name first) ∷ rest) (values.new.items, left)) }
{
    let Some((name, names)) = names.split_first() else {
        return Ok(tokens);
    };
    let (value, rest) = value_after(alloc, tokens, name.as_str())?;
    values.push(value)?;
    match put_values(alloc, names, rest, values) {
        Ok(left) => Ok(left),
        Err(refused) => Err(refused),
    }
}

// Gives these numbers of a row the values behind their names, and gives the tokens behind those.
fn put_sums<'t, 'a>(
    numbers: &[Number],
    tokens: &'t [Token<'a>],
    sums: &mut Sums,
) -> Option<&'t [Token<'a>]>
    requires { sums.old ≡ no_sums }
    ensures { (all : TheSums) (rest : List TheToken) → fit all ≡ true
        → map token_of tokens.now ≡ sums_tokens numbers.now all ++ rest
        → Remains rest result × (sums.new ≡ only numbers.now all) }
{
    let Some((number, numbers)) = numbers.split_first() else {
        return Some(tokens);
    };
    let (value, rest) = number_after(tokens, number.name())?;
    let rest = put_sums(numbers, rest, sums)?;
    sums.put(*number, u128::from(value));
    Some(rest)
}

// The value behind a key, if this key is next, and the tokens behind it.
fn value_after<'t, 'a>(
    alloc: Global,
    tokens: &'t [Token<'a>],
    name: &str,
) -> Result<(Option<ArgValue>, &'t [Token<'a>]), AllocError>
    ensures there { IfOk result (λ found. (value : TheValue) (rest : List TheToken)
        → IsOfArgument (Some value)
        → map token_of tokens.now ≡ key name.now ∷ (value_tokens value ++ rest)
        → Found (Some value) rest found) }
    ensures missing { IfOk result (λ found. (other : Bytes) (rest : List TheToken)
        → other ≢ name.now
        → map token_of tokens.now ≡ key other ∷ rest → Found None (key other ∷ rest) found) }
{
    match key_after(tokens, name) {
        Some(rest) => value_of(alloc, rest),
        None => Ok((None, tokens)),
    }
}

fn value_of<'t, 'a>(
    alloc: Global,
    tokens: &'t [Token<'a>],
) -> Result<(Option<ArgValue>, &'t [Token<'a>]), AllocError>
    ensures { IfOk result (λ found. (value : TheValue) (rest : List TheToken)
        → IsOfArgument (Some value)
        → map token_of tokens.now ≡ value_tokens value ++ rest → Found (Some value) rest found) }
{
    let Some((first, rest)) = tokens.split_first() else {
        return Ok((None, tokens));
    };
    Ok(match first {
        Token::Null => (Some(ArgValue::Nil), rest),
        Token::Bool(flag) => (Some(ArgValue::Flag(*flag)), rest),
        Token::Number(text) => (whole_of(text), rest),
        Token::String(text) => (Some(ArgValue::Words(Text::of(alloc, text)?)), rest),
        Token::BeginObject => match after_one(rest) {
            Some(rest) => (Some(ArgValue::Other), rest),
            None => (None, tokens),
        },
        _ => (None, tokens),
    })
}

fn whole_of(text: &str) -> Option<ArgValue>
    ensures { (number : ℤ) → FitsSigned w64 number → text.now ≡ signed_decimal number
        → result ≡ Some (Whole number) }
{
    match text.parse::<i64>() {
        Ok(number) => Some(ArgValue::Whole(number)),
        Err(_) => None,
    }
}
