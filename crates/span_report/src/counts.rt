//! How many entries of each kind there are, and the lines that say so.
ghost use Rattle.std.specs.Prelude.{◌≡◌, ◌++◌, string_bytes, IfOk, OnOk};
ghost use Rattle.span_report.specs.{Lines.{count_line, seals_line}, Report.head_lines};

use crate::lines::{first_line, put_unit};
use span_event::Unit;
use span_journal::CountRow;
use std::alloc::{AllocError, Global};
use std::marker::Model;

/// How many entries of each kind journals hold: of one, or of several together.
#[derive(Clone, Copy, Debug, PartialEq, Eq)]
pub struct EntryCounts {
    /// Events that are taken into account.
    pub accepted: u128,
    /// Elements that were refused, with whatever number.
    pub refused: u128,
    /// Elements that have no effect.
    pub skipped: u128,
    /// Queries.
    pub queries: u128,
    /// Seals that closed spans.
    pub seals: u128,
}

impl Model for EntryCounts {
    ghost use Rattle.span_report.specs.{CountRow};

    ghost Value = { CountRow };

    ghost view = { λ c. record { accepted = c.accepted; refused = c.refused; skipped = c.skipped; queries = c.queries; seals = c.seals } };

    ghost inverse = { λ n. record { accepted = n.accepted; refused = n.refused; skipped = n.skipped; queries = n.queries; seals = n.seals } };
}

impl EntryCounts {
    /// Those of one journal.
    pub fn of(row: CountRow) -> EntryCounts
        ensures { result ≡ row }
    {
        EntryCounts {
            accepted: u128::from(row.accepted),
            refused: u128::from(row.refused),
            skipped: u128::from(row.skipped),
            queries: u128::from(row.queries),
            seals: u128::from(row.seals),
        }
    }
}

/// The lines that every report begins with.
pub fn head(alloc: Global, unit: Unit, counts: &EntryCounts) -> Result<String, AllocError>
    ensures { IfOk result (λ text. string_bytes text ≡ head_lines unit counts.now) }
{
    let mut out = first_line(alloc)?;
    put_unit(&mut out, unit)?;
    put_counts(&mut out, counts)?;
    put_seals(&mut out, counts.seals)?;
    Ok(out)
}

/// Appends the line that counts entries.
#[tactic(auto, unfolding(crate::specs::Lines::count_line))]
pub fn put_counts(out: &mut String, counts: &EntryCounts) -> Result<(), AllocError>
    ensures { OnOk result (string_bytes out.new ≡ string_bytes out.old ++ count_line counts.now) }
{
    let (accepted, refused) = (counts.accepted, counts.refused);
    let (skipped, queries) = (counts.skipped, counts.queries);
    writeln!(
        out,
        "events {accepted} refused {refused} skipped {skipped} queries {queries}"
    )
}

/// Appends the line of seals, where spans were sealed.
#[tactic(auto, unfolding(crate::specs::Lines::seals_line))]
pub fn put_seals(out: &mut String, seals: u128) -> Result<(), AllocError>
    ensures { OnOk result (string_bytes out.new ≡ string_bytes out.old ++ seals_line seals) }
{
    if seals == 0 {
        return Ok(());
    }
    writeln!(out, "seals {seals}")
}
