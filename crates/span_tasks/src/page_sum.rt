//! What the runs of a page of files come to.
use crate::summed::summed_of;
use span_names::HashKeys;
use span_request::PageView;
use span_runs::{FileRun, Gathering};
use span_stack_sums::StackSum;
use span_table::{SumFault, TableSum};
use std::alloc::{AllocError, Global};

/// One table of all, and the stacks of all.
#[derive(Drop)]
pub(crate) struct PageSum {
    pub(crate) table: TableSum,
    pub(crate) stacks: StackSum,
}

impl Gathering for PageSum {
    ghost use Rattle.span_tasks.specs.Pages.{IsPageSum};

    type By = PageView;

    ghost come_to = { IsPageSum };

    fn of_none(alloc: Global, keys: HashKeys, view: &PageView) -> Result<PageSum, AllocError> {
        let schema = summed_of(alloc, &view.options)?;
        Ok(PageSum {
            table: Gathering::of_none(alloc, keys, &schema)?,
            stacks: Gathering::of_none(alloc, keys, &view.labels)?,
        })
    }

    fn with_run(
        self,
        alloc: Global,
        keys: HashKeys,
        view: &PageView,
        run: &FileRun,
    ) -> Result<PageSum, SumFault> {
        let PageSum { table, stacks } = self;
        let schema = summed_of(alloc, &view.options)?;
        Ok(PageSum {
            table: Gathering::with_run(table, alloc, keys, &schema, run)?,
            stacks: Gathering::with_run(stacks, alloc, keys, &view.labels, run)?,
        })
    }

    fn in_order(self) -> Result<PageSum, AllocError> {
        let PageSum { table, stacks } = self;
        Ok(PageSum {
            table: Gathering::in_order(table)?,
            stacks: Gathering::in_order(stacks)?,
        })
    }

    fn joined(self, other: PageSum) -> Result<PageSum, SumFault> {
        let PageSum { table, stacks } = self;
        let PageSum {
            table: more,
            stacks: others,
        } = other;
        Ok(PageSum {
            table: Gathering::joined(table, more)?,
            stacks: Gathering::joined(stacks, others)?,
        })
    }
}
