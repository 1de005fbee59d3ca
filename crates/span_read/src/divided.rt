//! A text whose middle may have been read before the rest of it.

use crate::blocks::ItemBlocks;
use crate::tokens::Tokens;
use json::Reader;
use span_event::Unit;

/// Elements from the middle of a text, and the tokens behind them.
#[derive(Drop)]
pub(crate) struct Middle<'a> {
    pub(crate) unit: Unit,
    /// How deep values in these elements may nest.
    pub(crate) depth: usize,
    pub(crate) text: &'a str,
    pub(crate) items: ItemBlocks,
    pub(crate) rest: Reader<'a>,
}

/// The tokens of a text, which end at its middle if that was read before.
#[derive(Drop)]
pub(crate) struct Divided<'a> {
    pub(crate) tokens: Tokens<'a>,
    pub(crate) middle: Option<Middle<'a>>,
    /// How many items a block of those that are read has at most.
    pub(crate) block: usize,
}
