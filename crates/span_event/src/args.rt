//! The arguments of an event.
ghost use Rattle.std.specs.{Arc.arc_slice_items, Option.option_map_or, Prelude.{◌≡◌, [], ◌∷◌, option_copied, IfOk, IfSome, IfNone}};
ghost use Rattle.span_event.specs.Args.{Arguments, IsInNameOrder, value_of, merged};

use crate::text::Text;
use std::alloc::{AllocError, Global};
use std::cmp::Ordering;
use std::fmt::{self, Debug, Formatter, Write};
use std::marker::Model;
use std::sync::ArcSlice;

/// A value of an event's arguments. Arrays, objects and numbers that are not whole are kept as `Other`. Ordered by the variants in
/// their order, and then by value; texts by their bytes.
#[derive(Debug, Drop, PartialEq, Eq, PartialOrd, Ord, Hash)]
pub enum ArgValue {
    Nil,
    Flag(bool),
    Whole(i64),
    Words(Text),
    Other,
}

impl ArgValue {
    pub fn try_clone(&self, alloc: Global) -> Result<ArgValue, AllocError>
        ensures { IfOk result (λ v. v ≡ self.now) }
    {
        match self {
            ArgValue::Whole(number) => Ok(ArgValue::Whole(*number)),
            ArgValue::Words(text) => Ok(ArgValue::Words(text.try_clone(alloc)?)),
            ArgValue::Flag(flag) => Ok(ArgValue::Flag(*flag)),
            ArgValue::Nil => Ok(ArgValue::Nil),
            ArgValue::Other => Ok(ArgValue::Other),
        }
    }
}

/// The arguments of an event: pairs of a name and a value, each name once, in byte order of names. Copies share them.
pub struct Args {
    // None where there are none: most events have none, and take no memory for them
    pairs: Option<ArcSlice<(Text, ArgValue)>>,
}

impl Model for Args {
    ghost Value = { Arguments };

    ghost view = { λ a. option_map_or arc_slice_items a.pairs [] };

    ghost invariant = { λ a. IsInNameOrder (option_map_or arc_slice_items a.pairs []) };
}

// Written out, so that dropping arguments is one call, whether there are some or none.
impl Drop for Args {
    fn drop(self) {
        let Args { pairs } = self;
        drop(pairs);
    }
}

impl Debug for Args {
    fn fmt<W: Write>(&self, f: &mut Formatter<W>) -> fmt::Result {
        f.debug_struct("Args")
            .field("pairs", &self.pairs())
            .finish()
    }
}

impl Args {
    /// No arguments. Takes no memory.
    pub fn empty(_alloc: Global) -> Args
        ensures { result ≡ [] }
    {
        Args { pairs: None }
    }

    pub fn get(&self, name: &str) -> Option<&ArgValue>
        ensures { option_copied result ≡ value_of name.now self.now }
    {
        for (key, value) in self.pairs() {
            if key.as_str() == name {
                return Some(value);
            }
        }
        None
    }

    /// The pairs, in byte order of their names. Takes no memory.
    pub fn pairs(&self) -> &[(Text, ArgValue)]
        ensures pairs { result.now ≡ self.now }
        ensures in_order { IsInNameOrder self.now }
    {
        match &self.pairs {
            Some(pairs) => pairs.as_slice(),
            None => &[],
        }
    }
}

impl Args {
    /// The pairs as they are.
    pub fn of_pairs(pairs: Vec<(Text, ArgValue)>) -> Result<Args, AllocError>
        requires { IsInNameOrder pairs.items }
        ensures { IfOk result (λ args. args ≡ pairs.items) }
    {
        if pairs.is_empty() {
            return Ok(Args { pairs: None });
        }
        let pairs = ArcSlice::from_vec(pairs)?;
        Ok(Args { pairs: Some(pairs) })
    }

    /// A copy shares the pairs: it takes no memory, and fails only where there are 2^63 copies.
    pub fn try_clone(&self, _alloc: Global) -> Result<Args, AllocError>
        ensures { IfOk result (λ a. a ≡ self.now) }
    {
        match &self.pairs {
            Some(pairs) => Ok(Args {
                pairs: Some(pairs.clone()?),
            }),
            None => Ok(Args { pairs: None }),
        }
    }
}

/// The arguments of a span, from those of its begin and of its end. Where both have a name, the end's value is taken. Where only
/// one of the two has arguments, the span shares them.
pub fn merge_args(alloc: Global, begin: &Args, end: &Args) -> Result<Args, AllocError>
    ensures { IfOk result (λ args. args ≡ merged begin.now end.now) }
{
    let (first, last) = (begin.pairs(), end.pairs());
    if last.is_empty() {
        return begin.try_clone(alloc);
    }
    if first.is_empty() {
        return end.try_clone(alloc);
    }
    let pairs = merge_pairs(alloc, first, last)?;
    Args::of_pairs(pairs)
}

fn merge_pairs(
    alloc: Global,
    begin: &[(Text, ArgValue)],
    end: &[(Text, ArgValue)],
) -> Result<Vec<(Text, ArgValue)>, AllocError>
    requires begin_in_order { IsInNameOrder begin.now }
    requires end_in_order { IsInNameOrder end.now }
    ensures { IfOk result (λ pairs. pairs.items ≡ merged begin.now end.now) }
{
    let mut pairs = Vec::new(alloc);
    let mut from_begin = begin;
    let mut from_end = end;
    'names: while let Some((pair, begin_rest, end_rest)) = next_pair(from_begin, from_end) {
        pairs.push(copy_of_pair(alloc, pair)?)?;
        from_begin = begin_rest;
        from_end = end_rest;
    }
    Ok(pairs)
}

type Pairs<'a> = &'a [(Text, ArgValue)];

// The first pair of both lists merged, and what is then left of each.
fn next_pair<'a>(
    begin: Pairs<'a>,
    end: Pairs<'a>,
) -> Option<(&'a (Text, ArgValue), Pairs<'a>, Pairs<'a>)>
    requires begin_in_order { IsInNameOrder begin.now }
    requires end_in_order { IsInNameOrder end.now }
    ensures none { IfNone result (merged begin.now end.now ≡ []) }
    ensures first { IfSome result
        (λ next. merged begin.now end.now ≡ next.0.now ∷ merged next.1.now next.2.now) }
    ensures in_order { IfSome result
        (λ next. IsInNameOrder next.1.now × IsInNameOrder next.2.now) }
{
    match (begin.split_first(), end.split_first()) {
        (None, None) => None,
        (Some((pair, rest)), None) => Some((pair, rest, end)),
        (None, Some((pair, rest))) => Some((pair, begin, rest)),
        (Some((b, begin_rest)), Some((e, end_rest))) => match b.0.cmp(&e.0) {
            Ordering::Less => Some((b, begin_rest, end)),
            Ordering::Equal => Some((e, begin_rest, end_rest)),
            Ordering::Greater => Some((e, begin, end_rest)),
        },
    }
}

fn copy_of_pair(alloc: Global, pair: &(Text, ArgValue)) -> Result<(Text, ArgValue), AllocError>
    ensures { IfOk result (λ copy. copy ≡ pair.now) }
{
    let name = pair.0.try_clone(alloc)?;
    let value = pair.1.try_clone(alloc)?;
    Ok((name, value))
}
