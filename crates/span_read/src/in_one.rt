//! Texts that are read in one.
ghost use Rattle.std.specs.Prelude.{◌≡◌, ◌≢◌, ◌∷◌, ◌++◌, [], None, Err, IfOk, if◌then◌else◌};
ghost use Rattle.serde_json.specs.Read.{read};
ghost use Rattle.span_read.specs.{Document.doc_of_document, Ending.ended, Tokens.{data_of_all, IsNotJson}, declared.error.ReadError.TheVariants.Memory};

use crate::blocks::ItemBlocks;
use crate::candidates::{MAX_DEPTH, TextReader};
use crate::divided::Divided;
use crate::document::read_all;
use crate::elements::Found;
use crate::error::ReadError;
use crate::error::stop::Stop;
use crate::format::Format;
use crate::tokens::Tokens;
use json::Scratch;
use std::alloc::Global;

/// Reads a text from its beginning to its end, and keeps its items in blocks of at most so many.
#[derive(Drop)]
pub(crate) struct InOne {
    pub(crate) block: usize,
}

impl TextReader for InOne {
    ghost use Rattle.std.specs.Prelude.{⊤};

    ghost is_ready = { ⊤ };

    fn read(
        &self,
        alloc: Global,
        format: Format,
        text: &str,
        bracket: bool,
    ) -> Result<ItemBlocks, ReadError> {
        read_text(alloc, format, text, bracket, self.block)
    }
}

/// Reads the text, or the text and a closing bracket behind it.
pub(crate) fn read_text(
    alloc: Global,
    format: Format,
    text: &str,
    bracket: bool,
    block: usize,
) -> Result<ItemBlocks, ReadError>
    ensures { result ≢ Err Memory
        → result ≡ doc_of_document format (read (if bracket then text.now ++ 93 ∷ [] else text.now)) }
{
    let mut scratch = Scratch::new(alloc);
    let Ok(tokens) = Tokens::of(alloc, text, &mut scratch) else {
        return Err(ReadError::Memory);
    };
    match read_tokens(tokens, format, bracket, block) {
        Ok(found) => found,
        Err(Stop::NotJson) => Err(ReadError::NotJson),
        Err(Stop::Memory) => Err(ReadError::Memory),
    }
}

/// Reads the document that all the tokens are, or that they are with a closing bracket behind them.
fn read_tokens(
    tokens: Tokens<'_>,
    format: Format,
    bracket: bool,
    block: usize,
) -> Result<Found, Stop>
    ensures found { IfOk result (λ found.
        found ≡ doc_of_document format (data_of_all 127 (ended bracket tokens.entry.reader))) }
    ensures refused { IsNotJson result → data_of_all 127 (ended bracket tokens.entry.reader) ≡ None }
{
    let mut text = Divided {
        tokens,
        middle: None,
        block,
    };
    read_all(&mut text, format, MAX_DEPTH, bracket)
}
