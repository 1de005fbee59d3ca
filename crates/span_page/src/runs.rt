//! A page of several runs, which come one after another.
ghost use Rattle.std.specs.Prelude.{◌≡◌, ◌≤◌, [], List, length, string_bytes, IfErr, IfOk, None, Some};
ghost use Rattle.span_page.specs.{KeyedSums, Stands, rows_of, Bounds.{IsFaultOf, most_bytes}, Runs.{Begins, Holds, ShownRun, TakesRun, page_of_runs}};

use crate::data::{MOST_FRAMES, put_report, put_rest, put_safe_string};
use crate::fault::{PageFault, check_length};
use crate::graph::graph_text;
use crate::safe::put_safe;
use crate::text::{before, behind};
use span_collect::{FileEnd, Input};
use span_event::Unit;
use span_ledger::Ledger;
use span_report::stacks::SpanColumn;
use span_stack_sums::StackSum;
use std::alloc::{AllocError, Global};
use std::marker::Model;

/// A page of runs, of which some are there.
#[derive(Drop)]
pub struct RunsPage {
    // Nothing once the page is too long, whatever comes.
    begun: Option<Begun>,
}

impl Model for RunsPage {
    ghost use Rattle.std.specs.Prelude.{Option};
    ghost use Rattle.span_page.specs.Runs.{BegunPage};

    ghost Value = { Option BegunPage };

    ghost view = { λ p. p.begun };
}

// The page so far.
#[derive(Drop)]
struct Begun {
    text: Vec<u8>,
    // How many frames are left for the graphs of later runs.
    left: u32,
    has_run: bool,
}

impl Model for Begun {
    ghost use Rattle.span_page.specs.Runs.{BegunPage};

    ghost Value = { BegunPage };

    ghost view = { λ p. record { text = p.text.items; left = p.left; has_run = p.has_run } };
}

impl RunsPage {
    /// The page of no runs.
    pub fn begin(alloc: Global) -> Result<RunsPage, AllocError>
        ensures { IfOk result (λ page. (unit : Unit) (labels : List SpanColumn)
            → Holds unit labels [] page) }
    {
        let mut text = Vec::new(alloc);
        text.extend_from_slice(before().as_bytes())?;
        text.extend_from_slice(b"{\"runs\":[")?;
        Ok(RunsPage {
            begun: Some(Begun {
                text,
                left: MOST_FRAMES,
                has_run: false,
            }),
        })
    }

    /// With one more run: that of the ledger's journal, whose times are in this unit, and of the files that were told to it, of which
    /// each has an end, in order. Frames are labels by these columns. Of a page that is too long nothing is kept but that.
    pub fn with_run(
        self,
        alloc: Global,
        unit: Unit,
        ledger: &Ledger,
        files: &[Input],
        ends: &[FileEnd],
        labels: &[SpanColumn],
    ) -> Result<RunsPage, AllocError>
        requires { length files.now ≡ length ends.now }
        ensures { IfOk result (TakesRun unit labels.now
            (record { files = files.now; ends = ends.now; journal = ledger.now.journal }) self) }
    {
        let RunsPage { begun } = self;
        let Some(begun) = begun else {
            return Ok(RunsPage { begun: None });
        };
        match begun.with_run(alloc, unit, ledger, files, ends, labels) {
            Ok(begun) => Ok(RunsPage { begun: Some(begun) }),
            Err(PageFault::TooLarge) => Ok(RunsPage { begun: None }),
            Err(PageFault::Memory) => Err(AllocError),
        }
    }

    /// The whole page, with the text of a table of spans, which is JSON Lines, and the graph of stacks that were added. One that is too
    /// long is not made, and there was never much more of it in memory than a page may have.
    pub fn end(self, alloc: Global, table: String, stacks: StackSum) -> Result<Vec<u8>, PageFault>
        ensures text { IfOk result (λ text. (unit : Unit) (labels : List SpanColumn)
            (runs : List ShownRun) (sums : KeyedSums)
            → Holds unit labels runs self → Stands stacks.rows sums
            → text.items ≡ page_of_runs unit labels (string_bytes table) (rows_of sums) runs) }
        ensures fits { IfOk result (λ text. length text.items ≤ most_bytes) }
        ensures full { IfErr result (λ fault. (unit : Unit) (labels : List SpanColumn)
            (runs : List ShownRun) (sums : KeyedSums)
            → Holds unit labels runs self → Stands stacks.rows sums
            → IsFaultOf (page_of_runs unit labels (string_bytes table) (rows_of sums) runs) fault) }
    {
        let RunsPage { begun } = self;
        match begun {
            Some(begun) => begun.end(alloc, table, stacks),
            None => Err(PageFault::TooLarge),
        }
    }
}

impl Begun {
    fn with_run(
        self,
        alloc: Global,
        unit: Unit,
        ledger: &Ledger,
        files: &[Input],
        ends: &[FileEnd],
        labels: &[SpanColumn],
    ) -> Result<Begun, PageFault>
        requires { length files.now ≡ length ends.now }
        ensures takes { IfOk result (λ new. TakesRun unit labels.now
            (record { files = files.now; ends = ends.now; journal = ledger.now.journal })
            (Some self) (Some new)) }
        ensures full { IfErr result (λ fault. fault ≡ PageFault.TooLarge → TakesRun unit labels.now
            (record { files = files.now; ends = ends.now; journal = ledger.now.journal })
            (Some self) None) }
    {
        let Begun {
            mut text,
            left,
            has_run,
        } = self;
        if has_run {
            text.push(b',')?;
        }
        let threads = put_report(alloc, unit, &mut text, ledger)?;
        let left = put_rest(
            alloc, unit, &mut text, ledger, files, ends, labels, &threads, left,
        )?;
        Ok(Begun {
            text,
            left,
            has_run: true,
        })
    }

    fn end(self, alloc: Global, table: String, stacks: StackSum) -> Result<Vec<u8>, PageFault>
        ensures text { IfOk result (λ text. (unit : Unit) (labels : List SpanColumn)
            (runs : List ShownRun) (sums : KeyedSums)
            → Begins unit labels runs self → Stands stacks.rows sums
            → text.items ≡ page_of_runs unit labels (string_bytes table) (rows_of sums) runs) }
        ensures fits { IfOk result (λ text. length text.items ≤ most_bytes) }
        ensures full { IfErr result (λ fault. (unit : Unit) (labels : List SpanColumn)
            (runs : List ShownRun) (sums : KeyedSums)
            → Begins unit labels runs self → Stands stacks.rows sums
            → IsFaultOf (page_of_runs unit labels (string_bytes table) (rows_of sums) runs) fault) }
    {
        let Begun { mut text, .. } = self;
        text.extend_from_slice(b"],\"table\":")?;
        put_safe_string(alloc, &mut text, table)?;
        let graph = graph_text(alloc, stacks)?;
        text.extend_from_slice(b",\"graph\":")?;
        put_safe(&mut text, graph.as_bytes())?;
        text.extend_from_slice(b"}")?;
        text.extend_from_slice(behind().as_bytes())?;
        check_length(&text)?;
        Ok(text)
    }
}
