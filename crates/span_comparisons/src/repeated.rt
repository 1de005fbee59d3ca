//! Which keys of repeated runs are shown, and of which of them the sides are apart.
ghost use Rattle.std.specs.Prelude.{◌≡◌, ◌++◌, ◌∷◌, ◌<◌, ◌≤◌, ◌+◌, ◌-◌, ◌^◌, [], List, length, map, IfOk, OnOk};
ghost use Rattle.span_comparisons.specs.{TableKey, Sides.ClassifiesSpreads, Spreads.{Spreads, all_keys, apart_spreads, keys_of, overlap_count, same_spread_count, shown_keys, shown_spreads, spreads_at}};

use crate::sides::Side;
use crate::spreads::Spreads;
use span_table::{Key, Number, OrderedTable, RowRef};
use span_table_text::Shown;
use std::alloc::{AllocError, Global};

/// Two sides of repeated runs: the keys that are shown, in ascending order, those of which the sides are apart, the greatest change
/// first, how many others overlap, how many are spread the same, and how many keys there are.
#[derive(Drop)]
pub(crate) struct RepeatedRuns<'a> {
    pub(crate) keys: Vec<&'a Key>,
    pub(crate) apart: Vec<Spreads<'a>>,
    pub(crate) overlap: u128,
    pub(crate) same: u128,
    pub(crate) all: usize,
}

// The keys so far: those whose sides are apart, how many overlap, and how many are spread the same.
#[derive(Drop)]
struct Classified<'a> {
    apart: Vec<Spreads<'a>>,
    overlap: u128,
    same: u128,
}

/// What the tables of both sides have of the keys that are shown.
pub(crate) fn repeated<'a>(
    alloc: Global,
    base: &'a [OrderedTable<'a>],
    other: &'a [OrderedTable<'a>],
    shown: &Shown,
    by: Number,
) -> Result<RepeatedRuns<'a>, AllocError>
    ensures keys { IfOk result (λ found. map (λ key. key.now) found.keys.items
        ≡ shown_keys shown.now (base.now ++ other.now)) }
    ensures apart { IfOk result (λ found. found.apart.items
        ≡ apart_spreads (shown_spreads by shown.now base.now other.now)) }
    ensures overlap { IfOk result (λ found. found.overlap
        ≡ overlap_count (shown_spreads by shown.now base.now other.now)) }
    ensures same { IfOk result (λ found. found.same
        ≡ same_spread_count (shown_spreads by shown.now base.now other.now)) }
    ensures all { IfOk result (λ found. found.all ≡ length (all_keys (base.now ++ other.now))) }
{
    let mut keys = all_keys(alloc, base, other)?;
    let all = keys.len();
    keys.retain(|key| shown.has(key));
    let Classified {
        mut apart,
        overlap,
        same,
    } = classify_all(alloc, base, other, &keys, by)?;
    apart.sort_unstable_by(|a, b| a.compare(b));
    Ok(RepeatedRuns {
        keys,
        apart,
        overlap,
        same,
        all,
    })
}

// Each key of a table of either side, once, in ascending order.
fn all_keys<'a>(
    alloc: Global,
    base: &'a [OrderedTable<'a>],
    other: &'a [OrderedTable<'a>],
) -> Result<Vec<&'a Key>, AllocError>
    ensures { IfOk result (λ keys. map (λ key. key.now) keys.items
        ≡ all_keys (base.now ++ other.now)) }
{
    let mut keys = Vec::new(alloc);
    push_keys(&mut keys, base)?;
    push_keys(&mut keys, other)?;
    keys.sort()?;
    keys.dedup();
    Ok(keys)
}

fn push_keys<'a>(keys: &mut Vec<&'a Key>, tables: &'a [OrderedTable<'a>]) -> Result<(), AllocError>
    ensures { OnOk result (map (λ key. key.now) keys.new.items
        ≡ map (λ key. key.now) keys.old.items ++ keys_of tables.now) }
{
    for table in tables {
        push_row_keys(keys, table.rows())?;
    }
    Ok(())
}

fn push_row_keys<'a>(keys: &mut Vec<&'a Key>, rows: &'a [RowRef]) -> Result<(), AllocError>
    ensures { OnOk result (map (λ key. key.now) keys.new.items
        ≡ map (λ key. key.now) keys.old.items ++ map (λ row. row.key) rows.now) }
{
    for row in rows {
        keys.push(&row.row().key)?;
    }
    Ok(())
}

fn classify_all<'a>(
    alloc: Global,
    base: &[OrderedTable],
    other: &[OrderedTable],
    keys: &[&'a Key],
    by: Number,
) -> Result<Classified<'a>, AllocError>
    ensures { IfOk result (λ found. ClassifiesSpreads
        (map (λ key. spreads_at by base.now other.now key.now) keys.now)
        found.apart.items found.overlap found.same) }
{
    let mut found = Classified {
        apart: Vec::new(alloc),
        overlap: 0,
        same: 0,
    };
    let mut base = Side::of(alloc, base)?;
    let mut other = Side::of(alloc, other)?;
    for key in keys {
        let spreads = spreads_at(&mut base, &mut other, key, by)?;
        classify(&mut found, spreads)?;
    }
    Ok(found)
}

fn spreads_at<'a>(
    base: &mut Side,
    other: &mut Side,
    key: &'a Key,
    by: Number,
) -> Result<Spreads<'a>, AllocError>
    ensures base { base.new.tables ≡ base.old.tables }
    ensures other { other.new.tables ≡ other.old.tables }
    ensures spreads { IfOk result (λ spreads.
        spreads ≡ spreads_at by base.old.tables other.old.tables key.now) }
    ensures base_order { IfOk result (λ spreads. spreads.base.least ≤ spreads.base.greatest) }
{
    base.look_up(key, by)?;
    other.look_up(key, by)?;
    Ok(Spreads {
        key,
        base: base.spread(),
        other: other.spread(),
    })
}

fn classify<'a>(found: &mut Classified<'a>, spreads: Spreads<'a>) -> Result<(), AllocError>
    requires order { spreads.base.least ≤ spreads.base.greatest }
    requires overlap { found.old.overlap < 2 ^ 128 - 1 }
    requires same { found.old.same < 2 ^ 128 - 1 }
    ensures overlap { OnOk result (found.new.overlap ≤ found.old.overlap + 1) }
    ensures same { OnOk result (found.new.same ≤ found.old.same + 1) }
    ensures classified { OnOk result ((all : List Spreads)
        → ClassifiesSpreads all found.old.apart.items found.old.overlap found.old.same
        → ClassifiesSpreads (all ++ spreads.entry ∷ [])
        found.new.apart.items found.new.overlap found.new.same) }
{
    if spreads.is_same() {
        found.same += 1;
    } else if spreads.is_apart() {
        found.apart.push(spreads)?;
    } else {
        found.overlap += 1;
    }
    Ok(())
}
