//! The items of an array's elements, as the tokens of a text give them, one element after another.
ghost use Rattle.std.specs.Prelude.{◌≡◌, ◌∷◌, ◌-◌, ◌<◌, [], None, Ok, Err, Bool, false, IfOk, if◌then◌else◌};
ghost use Rattle.json.specs.Reads.{token_of};
ghost use Rattle.span_read.specs.{Element.item_of_data, Elements.{Adds, AddsItems, TakesUpTo}, Ending.ended, Tokens.{data_at, TakesValue, IsNotJson}, declared.error.ReadError.TheVariants.TooMany};
ghost use Rattle.json.specs.Token as spec;

use crate::blocks::ItemBlocks;
use crate::element::item_of_fields;
use crate::error::ReadError;
use crate::error::stop::Stop;
use crate::fields::Fields;
use crate::format::Format;
use crate::tokens::Tokens;
use crate::tokens::beginning::{Beginning, beginning_of};
use crate::tokens::kept::read_members;
use crate::tokens::pass::{pass_array, pass_begun};
use json::Token;
use span_event::{Item, ItemFault, Unit};
use std::alloc::{AllocError, Global};

/// The items of a document, or why it is no trace that can be used.
pub(crate) type Found = Result<ItemBlocks, ReadError>;

/// What comes after the last element that was taken: the bracket that closes the array, or the end of the text.
#[derive(Drop)]
pub(crate) enum End {
    Bracket,
    Text,
}

/// The items of the elements so far, at most as many as a file may have, and whether there are more elements.
#[derive(Drop)]
pub(crate) struct Elements {
    pub(crate) items: ItemBlocks,
    pub(crate) too_many: bool,
}

impl Elements {
    /// None, which are to be kept in blocks of at most so many items.
    pub(crate) fn new(alloc: Global, block: usize) -> Elements
        ensures items { result.items ≡ [] }
        ensures few { result.too_many ≡ false }
    {
        Elements {
            items: ItemBlocks::new(alloc, block),
            too_many: false,
        }
    }

    /// What is found in an array with these elements, if they aren't too many.
    pub(crate) fn found(self) -> Found
        ensures { result ≡ (if self.too_many then Err TooMany else Ok self.items) }
    {
        if self.too_many {
            Err(ReadError::TooMany)
        } else {
            Ok(self.items)
        }
    }

    /// Adds the items of the elements that come next. If they are too many, none is kept.
    pub(crate) fn add(&mut self, format: Format, items: ItemBlocks) -> Result<(), AllocError>
        ensures { IfOk result (λ done. AddsItems format items self.old self.new) }
    {
        if self.items.len().saturating_add(items.len()) > format.most_elements as usize {
            self.too_many = true;
            return Ok(());
        }
        self.items.join(items)
    }

    /// Takes the elements of an array, whose bracket was taken, until it is closed or the text ends. Past the limit no item is kept,
    /// but the text is read on, since it may be no JSON.
    pub(crate) fn take(
        &mut self,
        tokens: &mut Tokens<'_>,
        format: Format,
        depth: usize,
    ) -> Result<End, Stop>
        requires { 0 < depth }
        ensures taken { IfOk result (λ end. TakesUpTo end (depth - 1) tokens.old.reader
            tokens.new.reader (Adds format self.old self.new)) }
        ensures refused { IsNotJson result → (bracket : Bool)
            → data_at depth (spec.begin_array ∷ ended bracket tokens.old.reader) ≡ None }
    {
        let mut fields = Fields::default();
        'elements: while let Some(token) = tokens.reader.next() {
            if let Token::EndArray = token {
                return Ok(End::Bracket);
            }
            if self.items.len() >= format.most_elements as usize {
                pass_begun(&mut tokens.reader, token, depth - 1)?;
                self.too_many = true;
            } else {
                let item = read_item(tokens, format.unit, token, depth - 1, &mut fields)?;
                self.items.push(item)?;
            }
        }
        Ok(End::Text)
    }
}
/// The item that a value is whose first token was taken. An object's fields are kept in `fields`, which are cleared before, so that
/// they aren't made anew for each element.
fn read_item(
    tokens: &mut Tokens<'_>,
    unit: Unit,
    token: Token<'_>,
    depth: usize,
    fields: &mut Fields,
) -> Result<Item, Stop>
    ensures item { IfOk result (λ item. TakesValue depth (token_of token.entry ∷ tokens.old.reader)
        tokens.new.reader (λ d. item_of_data unit d ≡ item)) }
    ensures refused { IsNotJson result
        → data_at depth (token_of token.entry ∷ tokens.old.reader) ≡ None }
{
    match beginning_of(token)? {
        Beginning::Object => {
            fields.clear();
            read_members(tokens, depth, fields)?;
            Ok(item_of_fields(tokens.alloc, unit, fields)?)
        }
        Beginning::Array => {
            pass_array(&mut tokens.reader, depth)?;
            Ok(Item::Bad(ItemFault::NotObject))
        }
        _ => Ok(Item::Bad(ItemFault::NotObject)),
    }
}
