//! The rows of a table, by their keys. Keys that rise are found without a search: each is looked for at a place first, which then is the
//! place behind it.
ghost use Rattle.std.specs.Prelude.{◌≡◌, option_copied};
ghost use Rattle.span_table.specs.{RowSearch.{found_at, is_behind, order_at, sums_at}, Tables.RowsRise};

use crate::key::Key;
use crate::ordered::RowRef;
use crate::sums::Sums;
use crate::table::Row;
use std::cmp::Ordering;

/// What rows have under a key; zeros where none has it.
pub fn sums_at(rows: &[RowRef], place: &mut usize, key: &Key) -> Sums
    requires { RowsRise rows.now }
    ensures { result ≡ sums_at rows.now key.now }
{
    match row_at(rows, place, key) {
        Some(row) => row.sums,
        None => Sums::of_none(),
    }
}

/// The row with this key.
pub fn row_at<'a>(rows: &[RowRef<'a>], place: &mut usize, key: &Key) -> Option<&'a Row>
    requires { RowsRise rows.now }
    ensures { option_copied result ≡ found_at rows.now key.now }
{
    let order = order_at(rows, *place, key);
    if order.is_eq() {
        let row = rows[*place].row();
        *place += 1;
        return Some(row);
    }
    if order.is_gt() && is_behind(rows, *place, key) {
        return None;
    }
    search(rows, place, key)
}

// The row with this key, wherever it stands.
fn search<'a>(rows: &[RowRef<'a>], place: &mut usize, key: &Key) -> Option<&'a Row>
    requires { RowsRise rows.now }
    ensures { option_copied result ≡ found_at rows.now key.now }
{
    match rows.binary_search_by(|row| row.row().key.cmp(key)) {
        Ok(i) => {
            *place = i + 1;
            Some(rows[i].row())
        }
        Err(i) => {
            *place = i;
            None
        }
    }
}

// How the key of the row at a place compares with a key; behind all rows keys are greater.
fn order_at(rows: &[RowRef], place: usize, key: &Key) -> Ordering
    ensures { result ≡ order_at rows.now place key.now }
{
    match rows.get(place) {
        Some(row) => row.row().key.cmp(key),
        None => Ordering::Greater,
    }
}

// Whether the row before a place, if there is one, has a lesser key.
fn is_behind(rows: &[RowRef], place: usize, key: &Key) -> bool
    ensures { result ≡ is_behind rows.now place key.now }
{
    place == 0 || order_at(rows, place - 1, key).is_lt()
}
