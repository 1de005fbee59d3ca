//! Texts that are read in parts, side by side.
ghost use Rattle.std.specs.{Prelude.{◌≡◌, ◌≢◌, ◌∷◌, ◌++◌, ◌+◌, ◌-◌, ◌<◌, [], Err, IfOk, if◌then◌else◌}, Thread.IsSync};
ghost use Rattle.json.specs.Lex.{tokens};
ghost use Rattle.serde_json.specs.Read.{read};
ghost use Rattle.span_read.specs.{Document.doc_of_document, Ending.ended, Parts.AreElements, Tokens.data_of_all, declared.error.ReadError.TheVariants.{Memory, NotJson}};

use crate::blocks::{BLOCK, ItemBlocks};
use crate::candidates::{MAX_DEPTH, TextReader, opens_with};
use crate::cuts::{first_cut, key_of_elements, last_cut};
use crate::divided::{Divided, Middle};
use crate::document::read_all;
use crate::elements::{Elements, End, Found};
use crate::error::ReadError;
use crate::error::stop::Stop;
use crate::format::Format;
use crate::in_one::read_text;
use crate::recent::RecentTexts;
use crate::tokens::Tokens;
use json::{Reader, Scratch};
use std::alloc::Global;
use std::mem::replace;
use std::thread::{Threads, join_mut};

/// A part is read in pieces of little more than so many bytes.
const PIECE: usize = 1 << 18;

/// Reads texts in so many parts. Where a text can't be cut, or was cut where it can't be, it is read in one.
#[derive(Drop)]
pub(crate) struct InParts<'r, R> {
    pub(crate) rt: &'r R,
    pub(crate) parts: u32,
}

impl<R: Threads + Sync> TextReader for InParts<'_, R> {
    ghost is_ready = { IsSync R.row };

    fn read(
        &self,
        alloc: Global,
        format: Format,
        text: &str,
        bracket: bool,
    ) -> Result<ItemBlocks, ReadError> {
        match read_divided(self, alloc, format, text, bracket) {
            Err(Stop::NotJson) | Ok(Err(ReadError::NotJson)) => {
                read_text(alloc, format, text, bracket, BLOCK)
            }
            Err(Stop::Memory) => Err(ReadError::Memory),
            Ok(found) => found,
        }
    }
}

/// Elements of an array at some depth, as a text, and in how many parts they are to be read.
#[derive(Clone, Copy)]
struct Part<'a> {
    text: &'a str,
    /// What the elements begin with behind which it is cut.
    key: &'a str,
    format: Format,
    depth: usize,
    parts: u32,
}

/// Reads what is between the first and the last cut in parts, and then the rest around it.
fn read_divided<R: Threads + Sync>(
    reader: &InParts<'_, R>,
    alloc: Global,
    format: Format,
    text: &str,
    bracket: bool,
) -> Result<Found, Stop>
    ensures { IfOk result (λ found. found ≢ Err NotJson
        → found ≡ doc_of_document format (read (if bracket then text.now ++ 93 ∷ [] else text.now))) }
{
    let key = key_of_elements(text);
    let Some((front, others)) = first_cut(text, 0, key) else {
        return Err(Stop::NotJson);
    };
    let Some((middle, rest)) = last_cut(others, key) else {
        return Err(Stop::NotJson);
    };
    let depth = if opens_with(text, b'[') {
        MAX_DEPTH
    } else {
        MAX_DEPTH - 1
    };
    let part = Part {
        text: middle,
        key,
        format,
        depth,
        parts: reader.parts,
    };
    let items = read_part(reader.rt, alloc, part)?;
    let mut scratch = Scratch::new(alloc);
    let mut other = Scratch::new(alloc);
    let tokens = Tokens::of(alloc, front, &mut scratch)?;
    let rest = Reader::new(rest, &mut other)?;
    read_around(tokens, part, items, rest, bracket)
}

/// Reads the document whose first tokens are these, then those of the part, and then the rest.
fn read_around<'a>(
    first: Tokens<'a>,
    part: Part<'a>,
    items: ItemBlocks,
    rest: Reader<'a>,
    bracket: bool,
) -> Result<Found, Stop>
    requires read { AreElements part.format.unit (part.depth - 1) part.text.now items }
    requires deep { 0 < part.depth }
    ensures { IfOk result (λ found. found ≡ doc_of_document part.entry.format
        (data_of_all 127 (ended bracket (first.entry.reader ++ (tokens part.entry.text.now ++ rest.entry))))) }
{
    let format = part.format;
    let mut text = Divided {
        tokens: first,
        middle: Some(Middle {
            unit: format.unit,
            depth: part.depth - 1,
            text: part.text,
            items,
            rest,
        }),
        block: BLOCK,
    };
    read_all(&mut text, format, MAX_DEPTH, bracket)
}

/// The items of some elements, which are read in two parts if both can have a part of their own.
#[cycle(parts)]
fn read_part<R: Threads + Sync>(rt: &R, alloc: Global, part: Part) -> Result<ItemBlocks, Stop>
    requires { 0 < part.depth }
    ensures { IfOk result (λ items.
        AreElements part.entry.format.unit (part.entry.depth - 1) part.entry.text.now items) }
{
    if part.parts < 2 {
        return read_elements(alloc, part);
    }
    let half = part.parts / 2;
    let from = part.text.len() / part.parts as usize * half as usize;
    let Some((front, back)) = first_cut(part.text, from, part.key) else {
        return read_elements(alloc, part);
    };
    let front = Part {
        text: front,
        parts: half,
        ..part
    };
    let back = Part {
        text: back,
        parts: part.parts - half,
        ..part
    };
    let (first, second) = read_both(rt, alloc, front, back);
    let mut items = first?;
    items.join(second?)?;
    Ok(items)
}

/// The items of two parts, which are read side by side.
#[cycle(parts)]
fn read_both<R: Threads + Sync>(
    rt: &R,
    alloc: Global,
    front: Part,
    back: Part,
) -> (Result<ItemBlocks, Stop>, Result<ItemBlocks, Stop>)
    requires parts { (0 < front.parts) × (0 < back.parts) }
    requires deep { (0 < front.depth) × (0 < back.depth) }
    ensures front { IfOk result.0 (λ items.
        AreElements front.entry.format.unit (front.entry.depth - 1) front.entry.text.now items) }
    ensures back { IfOk result.1 (λ items.
        AreElements back.entry.format.unit (back.entry.depth - 1) back.entry.text.now items) }
{
    join_mut(
        rt,
        &mut || -> Result<ItemBlocks, Stop>
            requires sync { IsSync R.row }
            requires deep { 0 < front.depth }
            ensures { IfOk result (λ items.
                AreElements front.entry.format.unit (front.entry.depth - 1) front.entry.text.now items) }
        { read_part(rt, alloc, front) },
        &mut || -> Result<ItemBlocks, Stop>
            requires sync { IsSync R.row }
            requires deep { 0 < back.depth }
            ensures { IfOk result (λ items.
                AreElements back.entry.format.unit (back.entry.depth - 1) back.entry.text.now items) }
        { read_part(rt, alloc, back) },
    )
}

/// The items of the elements, which are read piece by piece, so that the room for strings with escapes is that of one piece.
fn read_elements(alloc: Global, part: Part) -> Result<ItemBlocks, Stop>
    requires { 0 < part.depth }
    ensures { IfOk result (λ items.
        AreElements part.entry.format.unit (part.entry.depth - 1) part.entry.text.now items) }
{
    let mut scratch = Scratch::new(alloc);
    let mut recent = RecentTexts::new(alloc)?;
    let mut items = ItemBlocks::new(alloc, BLOCK);
    let mut rest = part.text;
    'pieces: while let Some((front, behind)) = first_cut(rest, PIECE, part.key) {
        let piece = Part {
            text: front,
            ..part
        };
        items.join(read_piece(alloc, &mut scratch, &mut recent, piece)?)?;
        rest = behind;
    }
    let last = Part { text: rest, ..part };
    items.join(read_piece(alloc, &mut scratch, &mut recent, last)?)?;
    Ok(items)
}

/// The items of the elements, which are read in one. Strings may share their bytes with recent ones.
fn read_piece(
    alloc: Global,
    scratch: &mut Scratch,
    recent: &mut RecentTexts,
    piece: Part,
) -> Result<ItemBlocks, Stop>
    requires { 0 < piece.depth }
    ensures { IfOk result (λ items.
        AreElements piece.entry.format.unit (piece.entry.depth - 1) piece.entry.text.now items) }
{
    let mut tokens = Tokens {
        reader: Reader::new(piece.text, scratch)?,
        alloc,
        recent: replace(recent, RecentTexts::none(alloc)),
        pairs: Vec::new(alloc),
    };
    let mut elements = Elements::new(alloc, BLOCK);
    let end = elements.take(&mut tokens, piece.format, piece.depth)?;
    *recent = tokens.recent;
    match end {
        End::Text if !elements.too_many => Ok(elements.items),
        _ => Err(Stop::NotJson),
    }
}
