//! The fields of an event, as the tokens of its object give them.
ghost use Rattle.span_read.specs.Fields.{arg_value, field_value, pairs_of, fields_of};

use crate::arg_map::ArgMap;
use crate::error::stop::Stop;
use crate::fields::{FieldValue, Fields};
use crate::tokens::Tokens;
use crate::tokens::beginning::{Beginning, next_beginning};
use crate::tokens::kept::{KeptMembers, KeptValue, read_members};
use crate::tokens::pass::{pass_array, pass_object};
use span_event::ArgValue;
use std::mem::replace;

impl KeptMembers for Fields {
    ghost of = { fields_of };

    #[inline(always)]
    fn keep(&mut self, name: &str, tokens: &mut Tokens<'_>, depth: usize) -> Result<(), Stop> {
        let value = FieldValue::read(tokens, depth)?;
        self.put(name, value);
        Ok(())
    }
}

impl KeptMembers for ArgMap {
    ghost of = { pairs_of };

    #[inline(always)]
    fn keep(&mut self, name: &str, tokens: &mut Tokens<'_>, depth: usize) -> Result<(), Stop> {
        let name = tokens.recent.text(tokens.alloc, name)?;
        let value = ArgValue::read(tokens, depth)?;
        self.put(tokens.alloc, name, value)?;
        Ok(())
    }
}

impl KeptValue for FieldValue {
    ghost of = { field_value };

    #[inline(always)]
    fn read(tokens: &mut Tokens<'_>, depth: usize) -> Result<FieldValue, Stop> {
        match next_beginning(&mut tokens.reader)? {
            Beginning::Object => {
                let mut map = ArgMap::over(replace(&mut tokens.pairs, Vec::new(tokens.alloc)));
                read_members(tokens, depth, &mut map)?;
                let pairs = map.into_args(tokens.alloc, &mut tokens.pairs)?;
                Ok(FieldValue::Pairs(pairs))
            }
            Beginning::Array => {
                pass_array(&mut tokens.reader, depth)?;
                Ok(FieldValue::Plain(ArgValue::Other))
            }
            Beginning::Words(text) => {
                let words = tokens.recent.text(tokens.alloc, text)?;
                Ok(FieldValue::Plain(ArgValue::Words(words)))
            }
            Beginning::Whole(number) => Ok(FieldValue::Plain(ArgValue::Whole(number))),
            Beginning::Float(number) => Ok(FieldValue::Float(number)),
            Beginning::Flag(flag) => Ok(FieldValue::Plain(ArgValue::Flag(flag))),
            Beginning::Nil => Ok(FieldValue::Plain(ArgValue::Nil)),
            Beginning::Other => Ok(FieldValue::Plain(ArgValue::Other)),
        }
    }
}

impl KeptValue for ArgValue {
    ghost of = { arg_value };

    #[inline(always)]
    fn read(tokens: &mut Tokens<'_>, depth: usize) -> Result<ArgValue, Stop> {
        match next_beginning(&mut tokens.reader)? {
            Beginning::Object => {
                pass_object(&mut tokens.reader, depth)?;
                Ok(ArgValue::Other)
            }
            Beginning::Array => {
                pass_array(&mut tokens.reader, depth)?;
                Ok(ArgValue::Other)
            }
            Beginning::Words(text) => {
                let words = tokens.recent.text(tokens.alloc, text)?;
                Ok(ArgValue::Words(words))
            }
            Beginning::Whole(number) => Ok(ArgValue::Whole(number)),
            Beginning::Flag(flag) => Ok(ArgValue::Flag(flag)),
            Beginning::Nil => Ok(ArgValue::Nil),
            Beginning::Float(_) | Beginning::Other => Ok(ArgValue::Other),
        }
    }
}
