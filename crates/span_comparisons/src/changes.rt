//! What changed between two tables of the same schema.
ghost use Rattle.std.specs.Prelude.{◌≡◌, ◌++◌, ◌∷◌, [], ◌<◌, ◌≤◌, ◌+◌, ◌-◌, ◌^◌, List, length, IfOk, OnOk};
ghost use Rattle.span_comparisons.specs.{RowsRise, Changed.{Classifies, base_keys, new_key, new_keys}, Changes.{Change, by_gap, changes_of, compared, gap_by, gaps_order, is_changed, same_count, shown_changes}};

use crate::numbers::order_numbers;
use span_table::{Key, Number, Row, RowRef, Sums, row_at, sums_at};
use span_table_text::Shown;
use std::alloc::{AllocError, Global};
use std::cmp::Ordering;
use std::marker::Model;

/// The sums of a key in both of two runs.
#[derive(Clone, Copy)]
pub struct Both {
    pub base: Sums,
    pub other: Sums,
}

/// A key with its sums in both.
#[derive(Drop)]
pub(crate) struct Changed<'a> {
    pub(crate) key: &'a Key,
    pub(crate) both: Both,
}

impl<'a> Model for Changed<'a> {
    ghost use Rattle.span_comparisons.specs.Changes.{Change};

    ghost Value = { Change };

    ghost view = { λ c. record { key = c.key.now; both = c.both } };
}

impl<'a> Changed<'a> {
    fn is_changed(&self) -> bool
        ensures { result ≡ is_changed self.now }
    {
        !self.both.base.equals(&self.both.other)
    }

    fn gap(&self, by: Number) -> u128
        ensures { result ≡ gap_by by self.now }
    {
        self.both.base.by(by).abs_diff(self.both.other.by(by))
    }

    // Which of two comes first by how far these numbers lie apart, one after another, and then by key.
    fn compare(&self, other: &Changed<'a>, numbers: &[Number]) -> Ordering
        ensures { result ≡ gaps_order numbers.now self.now other.now }
    {
        let Some((number, numbers)) = numbers.split_first() else {
            return self.key.cmp(other.key);
        };
        let rest = self.compare(other, numbers);
        self.by_gap(other, *number).then(rest)
    }

    // Which of two comes first by how far a number lies apart.
    fn by_gap(&self, other: &Changed<'a>, by: Number) -> Ordering
        ensures { result ≡ by_gap by self.now other.now }
    {
        other.gap(by).cmp(&self.gap(by))
    }
}

/// Two tables, compared: the keys that are shown and of which a number differs, how many others of these there are, and how many
/// keys are shown and how many there are.
#[derive(Drop)]
pub(crate) struct ComparedTables<'a> {
    pub(crate) changes: Vec<Changed<'a>>,
    pub(crate) same: u128,
    pub(crate) shown: u128,
    pub(crate) all: u128,
}

// The keys so far: those shown that changed, how many others are shown, and how many there are.
#[derive(Drop)]
struct Classified<'a> {
    changes: Vec<Changed<'a>>,
    same: u128,
    all: u128,
}

/// What changed from the base to the other, of whose rows these numbers are shown, the greatest change of one number first.
pub(crate) fn differences<'a>(
    alloc: Global,
    numbers: &[Number],
    base: &'a [RowRef],
    other: &'a [RowRef],
    shown: &Shown,
    by: Number,
) -> Result<ComparedTables<'a>, AllocError>
    requires base { RowsRise base.now }
    requires other { RowsRise other.now }
    ensures changes { IfOk result (λ found. found.changes.items
        ≡ changes_of by numbers.now (shown_changes shown.now (compared base.now other.now))) }
    ensures same { IfOk result (λ found. found.same
        ≡ same_count (shown_changes shown.now (compared base.now other.now))) }
    ensures shown { IfOk result (λ found. found.shown
        ≡ length (shown_changes shown.now (compared base.now other.now))) }
    ensures all { IfOk result (λ found. found.all ≡ length (compared base.now other.now)) }
{
    let mut found = Classified {
        changes: Vec::new(alloc),
        same: 0,
        all: 0,
    };
    classify_base(&mut found, base, other, shown)?;
    classify_new(&mut found, base, other, shown)?;
    let Classified {
        mut changes,
        same,
        all,
    } = found;
    let shown = changes.len() as u128 + same;
    let order = order_numbers(alloc, by, numbers)?;
    changes.sort_unstable_by(|a, b| a.compare(b, &order));
    Ok(ComparedTables {
        changes,
        same,
        shown,
        all,
    })
}

// Classifies each key of the base.
fn classify_base<'a>(
    found: &mut Classified<'a>,
    base: &'a [RowRef],
    other: &[RowRef],
    shown: &Shown,
) -> Result<(), AllocError>
    requires base { RowsRise base.now }
    requires other { RowsRise other.now }
    requires nothing { Classifies shown.now []
        found.old.changes.items found.old.same found.old.all }
    ensures classified { OnOk result (Classifies shown.now (base_keys base.now other.now)
        found.new.changes.items found.new.same found.new.all) }
    ensures few { OnOk result (found.new.all < 2 ^ 64) }
{
    let mut place = 0;
    for row in base {
        let row = row.row();
        let both = Both {
            base: row.sums,
            other: sums_at(other, &mut place, &row.key),
        };
        let key = &row.key;
        classify(found, Changed { key, both }, shown)?;
    }
    Ok(())
}

// Classifies each key of the other that the base lacks.
fn classify_new<'a>(
    found: &mut Classified<'a>,
    base: &[RowRef],
    other: &'a [RowRef],
    shown: &Shown,
) -> Result<(), AllocError>
    requires base { RowsRise base.now }
    requires other { RowsRise other.now }
    requires classified { Classifies shown.now (base_keys base.now other.now)
        found.old.changes.items found.old.same found.old.all }
    requires few { found.old.all < 2 ^ 64 }
    ensures classified { OnOk result (Classifies shown.now
        (base_keys base.now other.now ++ new_keys base.now other.now)
        found.new.changes.items found.new.same found.new.all) }
    ensures few { OnOk result (found.new.all < 2 ^ 65) }
{
    let mut place = 0;
    for row in other {
        classify_if_new(found, base, &mut place, row.row(), shown)?;
    }
    Ok(())
}

fn classify_if_new<'a>(
    found: &mut Classified<'a>,
    base: &[RowRef],
    place: &mut usize,
    row: &'a Row,
    shown: &Shown,
) -> Result<(), AllocError>
    requires base { RowsRise base.now }
    requires same { found.old.same < 2 ^ 128 - 1 }
    requires all { found.old.all < 2 ^ 128 - 1 }
    ensures few { OnOk result (found.new.all ≤ found.old.all + 1) }
    ensures classified { OnOk result ((keys : List Change)
        → Classifies shown.now keys found.old.changes.items found.old.same found.old.all
        → Classifies shown.now (keys ++ new_key base.now row.now)
        found.new.changes.items found.new.same found.new.all) }
{
    if row_at(base, place, &row.key).is_some() {
        return Ok(());
    }
    let both = Both {
        base: Sums::of_none(),
        other: row.sums,
    };
    let key = &row.key;
    classify(found, Changed { key, both }, shown)
}

fn classify<'a>(
    found: &mut Classified<'a>,
    changed: Changed<'a>,
    shown: &Shown,
) -> Result<(), AllocError>
    requires same { found.old.same < 2 ^ 128 - 1 }
    requires all { found.old.all < 2 ^ 128 - 1 }
    ensures few { OnOk result (found.new.all ≤ found.old.all + 1) }
    ensures classified { OnOk result ((keys : List Change)
        → Classifies shown.now keys found.old.changes.items found.old.same found.old.all
        → Classifies shown.now (keys ++ changed.entry ∷ [])
        found.new.changes.items found.new.same found.new.all) }
{
    found.all += 1;
    if !shown.has(changed.key) {
        return Ok(());
    }
    if changed.is_changed() {
        found.changes.push(changed)?;
    } else {
        found.same += 1;
    }
    Ok(())
}
