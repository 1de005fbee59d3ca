//! Which rows of a table are shown.
ghost use Rattle.std.specs.{List.{list_all, list_any}, Prelude.{◌≡◌, IfOk}};
ghost use Rattle.span_table_text.specs.Shown.{is_wanted, key_has, shown_rows, value_has, wants_all};

use span_event::{ArgValue, Text};
use span_table::{Key, Row, RowRef, Table, sorted};
use std::alloc::{AllocError, Global};
use std::marker::Model;

/// The rows that a text shows: those whose texts have all of `only`, each in some text, and none of `skip`.
#[derive(Drop)]
pub struct Shown {
    pub only: Vec<Text>,
    pub skip: Vec<Text>,
}

impl Model for Shown {
    ghost use Rattle.span_table_text.specs.Shown.{Wanted};

    ghost Value = { Wanted };

    ghost view = { λ s. record { only = s.only.items; skip = s.skip.items } };
}

impl Shown {
    /// The rows that are shown.
    pub(crate) fn rows<'a>(
        &self,
        alloc: Global,
        rows: &'a [Row],
    ) -> Result<Vec<RowRef<'a>>, AllocError>
        ensures { IfOk result (λ found. found.items ≡ shown_rows self.now rows.now) }
    {
        let mut found = Vec::new(alloc);
        for row in rows {
            if self.has(&row.key) {
                found.push(RowRef::of(row))?;
            }
        }
        Ok(found)
    }

    /// The rows of a table that are shown, in ascending order of keys.
    pub(crate) fn ordered_rows<'a>(
        &self,
        alloc: Global,
        table: &'a Table,
    ) -> Result<Vec<RowRef<'a>>, AllocError>
        ensures { IfOk result (λ found. found.items ≡ shown_rows self.now table.now.rows) }
    {
        Ok(sorted(self.rows(alloc, table.rows())?))
    }

    pub(crate) fn is_all(&self) -> bool
        ensures { result ≡ wants_all self.now }
    {
        self.only.is_empty() && self.skip.is_empty()
    }

    /// Whether the rows with this key are shown.
    pub fn has(&self, key: &Key) -> bool
        ensures { result ≡ is_wanted self.now key.now }
    {
        has_all(key, &self.only) && !has_any(key, &self.skip)
    }
}

fn has_all(key: &Key, texts: &[Text]) -> bool
    ensures { result ≡ list_all (key_has key.now) texts.now }
{
    texts.iter().all(|text| key_has(key, text))
}

fn has_any(key: &Key, texts: &[Text]) -> bool
    ensures { result ≡ list_any (key_has key.now) texts.now }
{
    texts.iter().any(|text| key_has(key, text))
}

// Whether some text of the key has these bytes.
fn key_has(key: &Key, bytes: &Text) -> bool
    ensures { result ≡ key_has key.now bytes.now }
{
    key.values().iter().any(|value| value_has(bytes, value))
}

fn value_has(bytes: &Text, value: &Option<ArgValue>) -> bool
    ensures { result ≡ value_has bytes.now value.now }
{
    match value {
        Some(ArgValue::Words(text)) => text.as_str().contains(bytes.as_str()),
        _ => false,
    }
}
