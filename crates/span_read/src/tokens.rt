//! The tokens of a text: the beginning of a value, its number, what is kept of values and objects, and values that are passed over.
ghost use Rattle.std.specs.Prelude.{◌≡◌, IfOk};
ghost use Rattle.json.specs.Lex.{tokens};

pub(crate) mod beginning;
pub(crate) mod kept;
mod number;
pub(crate) mod pass;

use crate::arg_map::Pair;
use crate::recent::RecentTexts;
use json::{Reader, Scratch};
use std::alloc::{AllocError, Global};

/// The tokens that are left of a text, and the memory and the recent texts for what is kept of them.
#[derive(Drop)]
pub(crate) struct Tokens<'a> {
    pub(crate) reader: Reader<'a>,
    pub(crate) alloc: Global,
    pub(crate) recent: RecentTexts,
    // Room for the arguments of one event, which then get just the room that they need.
    pub(crate) pairs: Vec<Pair>,
}

impl<'a> Tokens<'a> {
    /// All tokens of the text.
    pub(crate) fn of(
        alloc: Global,
        text: &'a str,
        scratch: &'a mut Scratch,
    ) -> Result<Tokens<'a>, AllocError>
        ensures { IfOk result (λ all. all.reader ≡ tokens text.now) }
    {
        Ok(Tokens {
            reader: Reader::new(text, scratch)?,
            alloc,
            recent: RecentTexts::new(alloc)?,
            pairs: Vec::new(alloc),
        })
    }
}
