//! A run: what one ledger holds once it is closed, and what is known of its files.
use span_event::Text;
use span_ledger::Ledger;
use std::marker::Model;

/// A run, by its ledger. `file` is the name of its only file.
#[derive(Drop)]
pub(crate) struct LedgerRun<'a> {
    pub(crate) ledger: &'a Ledger,
    pub(crate) files: u64,
    pub(crate) unread: u64,
    pub(crate) file: Option<&'a Text>,
}

impl<'a> Model for LedgerRun<'a> {
    ghost use Rattle.std.specs.Prelude.{option_copied};
    ghost use Rattle.span_table.specs.Columns.{Run};

    ghost Value = { Run };

    ghost view = { λ r. record { journal = r.ledger.now.journal; files = r.files; unread = r.unread; file = option_copied r.file } };
}
