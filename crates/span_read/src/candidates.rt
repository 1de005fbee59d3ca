//! The texts that are tried in turn: the text itself, and of an array also the text cut at its end, and closed.
ghost use Rattle.std.specs.Prelude.{◌≡◌, ◌≢◌, ◌∷◌, ◌++◌, [], Err, if◌then◌else◌};
ghost use Rattle.serde_json.specs.Read.{read};
ghost use Rattle.span_read.specs.{Document.{is_blank, opens_with, without_trailing_blanks, without_trailing_comma, cut_text, candidates, first_read, doc_of_document}, Ending.closes_array, declared.error.ReadError.TheVariants.Memory};

use crate::blocks::ItemBlocks;
use crate::error::ReadError;
use crate::format::Format;
use std::alloc::Global;

/// How deep arrays and objects may nest.
pub(crate) const MAX_DEPTH: usize = 127;

/// A way to read texts.
pub(crate) trait TextReader {
    // What the way asks of its types.
    ghost is_ready: { Type 0 };

    /// What the text is, or the text and a closing bracket behind it.
    fn read(
        &self,
        alloc: Global,
        format: Format,
        text: &str,
        bracket: bool,
    ) -> Result<ItemBlocks, ReadError>
        requires { is_ready }
        ensures { result ≢ Err Memory
            → result ≡ doc_of_document format (read (if bracket then text.now ++ 93 ∷ [] else text.now)) };
}

/// What the first candidate that reads is. None is a copy.
pub(crate) fn read_first<T: TextReader>(
    reader: &T,
    alloc: Global,
    format: Format,
    text: &str,
) -> Result<ItemBlocks, ReadError>
    requires { T.is_ready }
    ensures { result ≢ Err Memory
        → result ≡ doc_of_document format (first_read (candidates text.now)) }
{
    match read_closed(reader, alloc, format, text) {
        Err(ReadError::NotJson) if opens_with(text, b'[') => {
            read_unfinished(reader, alloc, format, text)
        }
        answer => answer,
    }
}

fn read_unfinished<T: TextReader>(
    reader: &T,
    alloc: Global,
    format: Format,
    text: &str,
) -> Result<ItemBlocks, ReadError>
    requires { T.is_ready }
    ensures { result ≢ Err Memory → result ≡ doc_of_document format
        (first_read (cut_text text.now ∷ (cut_text text.now ++ 93 ∷ []) ∷ [])) }
{
    let cut = cut_text(text);
    match read_closed(reader, alloc, format, cut) {
        Err(ReadError::NotJson) => reader.read(alloc, format, cut, true),
        answer => answer,
    }
}

/// An array whose closing bracket is missing isn't read to its end to find that out.
fn read_closed<T: TextReader>(
    reader: &T,
    alloc: Global,
    format: Format,
    text: &str,
) -> Result<ItemBlocks, ReadError>
    requires { T.is_ready }
    ensures { result ≢ Err Memory → result ≡ doc_of_document format (read text.now) }
{
    if opens_with(text, b'[') && !closes_array(text) {
        Err(ReadError::NotJson)
    } else {
        reader.read(alloc, format, text, false)
    }
}

fn is_blank(byte: u8) -> bool
    ensures { result ≡ is_blank byte }
{
    matches!(byte, b' ' | b'\t' | b'\n' | b'\r')
}

/// Whether the first byte that is no blank is this one.
pub(crate) fn opens_with(text: &str, mark: u8) -> bool
    ensures { result ≡ opens_with mark text.now }
{
    for byte in text.as_bytes() {
        if !is_blank(*byte) {
            return *byte == mark;
        }
    }
    false
}

fn closes_array(text: &str) -> bool
    ensures { result ≡ closes_array text.now }
{
    let bytes = without_trailing_blanks(text).as_bytes();
    !bytes.is_empty() && bytes[bytes.len() - 1] == b']'
}

fn cut_text(text: &str) -> &str
    ensures { result.now ≡ cut_text text.now }
{
    without_trailing_blanks(without_trailing_comma(without_trailing_blanks(text)))
}

fn without_trailing_comma(text: &str) -> &str
    ensures { result.now ≡ without_trailing_comma text.now }
{
    let bytes = text.as_bytes();
    if !bytes.is_empty() && bytes[bytes.len() - 1] == b',' {
        &text[..text.len() - 1]
    } else {
        text
    }
}

fn without_trailing_blanks(text: &str) -> &str
    ensures { result.now ≡ without_trailing_blanks text.now }
{
    let bytes = text.as_bytes();
    let mut end = bytes.len();
    while end > 0 && is_blank(bytes[end - 1]) {
        end -= 1;
    }
    &text[..end]
}
