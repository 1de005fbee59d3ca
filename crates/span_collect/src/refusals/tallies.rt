//! The tallies of all callers of a journal.
ghost use Rattle.std.specs.Prelude.{◌≡◌, ◌∷◌, [], ◌++◌, IfOk, OnOk, List};
ghost use Rattle.span_collect.specs.{Entry, Refusals.Tallies.{HasRoomFor, tallies_of}};

use super::tally::Tally;
use span_journal::Entry;
use span_ledger::Ledger;
use std::alloc::{AllocError, Global};
use std::collections::BTreeMap;

// What the answers to each caller of the ledger's journal give.
pub(crate) fn tallies(alloc: Global, ledger: &Ledger) -> Result<BTreeMap<u32, Tally>, AllocError>
    ensures { IfOk result (λ tallies. tallies.entries ≡ tallies_of ledger.now.journal) }
{
    let mut tallies = BTreeMap::new(alloc);
    for position in 0..ledger.len() {
        if let Some(entry) = ledger.entry(position) {
            add(alloc, &mut tallies, entry)?;
        }
    }
    Ok(tallies)
}

fn add(alloc: Global, tallies: &mut BTreeMap<u32, Tally>, entry: &Entry) -> Result<(), AllocError>
    requires { HasRoomFor tallies.old.entries }
    ensures { OnOk result ((journal : List Entry) → tallies.old.entries ≡ tallies_of journal
        → tallies.new.entries ≡ tallies_of (journal ++ entry.now ∷ [])) }
{
    if let Some(tally) = tallies.get_mut(&entry.caller) {
        return tally.add(&entry.answer);
    }
    let mut tally = Tally::new(alloc);
    tally.add(&entry.answer)?;
    tallies.insert(entry.caller, tally)?;
    Ok(())
}
