//! The text of a page.
ghost use Rattle.std.specs.Prelude.{◌≡◌, ◌≤◌, length, string_bytes, IfErr, IfOk};
ghost use Rattle.span_page.specs.{Bounds.{IsFaultOf, most_bytes}, Page.{page_of, text_before, text_behind}};

use crate::data::put_data;
use crate::fault::{PageFault, check_length};
use crate::fixed::{BEFORE, BEHIND};
use span_collect::{FileEnd, Input};
use span_event::Unit;
use span_ledger::Ledger;
use span_report::stacks::SpanColumn;
use std::alloc::Global;

/// The page of the ledger's journal, whose times are in this unit, and of the files that were told to it: a fixed text, the data as
/// one JSON text, and another fixed text. Frames are labels by these columns, and the table of spans is a text, JSON Lines. In the
/// data `<`, `>`, `&` and the two line separators are escapes. There is one end for each file, in order. A page that is too long is
/// not made, and there was never much more of it in memory than a page may have.
#[tactic(auto, unfolding(crate::specs::Page::page_of), using(std::proofs::Common::append_assoc))]
pub fn page(
    alloc: Global,
    unit: Unit,
    ledger: &Ledger,
    files: &[Input],
    ends: &[FileEnd],
    labels: &[SpanColumn],
    table: String,
) -> Result<Vec<u8>, PageFault>
    requires { length files.now ≡ length ends.now }
    ensures text { IfOk result (λ text. text.items
        ≡ page_of unit labels.now (string_bytes table) files.now ends.now ledger.now.journal) }
    ensures fits { IfOk result (λ text. length text.items ≤ most_bytes) }
    ensures full { IfErr result (IsFaultOf
        (page_of unit labels.now (string_bytes table) files.now ends.now ledger.now.journal)) }
{
    let mut out = Vec::new(alloc);
    out.extend_from_slice(before().as_bytes())?;
    put_data(alloc, unit, &mut out, ledger, files, ends, labels, table)?;
    out.extend_from_slice(behind().as_bytes())?;
    check_length(&out)?;
    Ok(out)
}

#[tactic(auto, unfolding(crate::specs::Page::text_before))]
pub(crate) fn before() -> &'static str
    ensures { result.now ≡ text_before }
{
    BEFORE
}

#[tactic(auto, unfolding(crate::specs::Page::text_behind))]
pub(crate) fn behind() -> &'static str
    ensures { result.now ≡ text_behind }
{
    BEHIND
}
