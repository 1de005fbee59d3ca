//! The arguments of one object while its members are read.
ghost use Rattle.std.specs.{BTreeMap.insert_entry, List.insert, Prelude.{◌≡◌, ◌<◌, ◌≤◌, [], length, set, IfOk, IfErr, OnOk, OnErr}};
ghost use Rattle.span_read.specs.{ArgValue, IsInNameOrder, Arguments, text_cmp, ArgMap.pairs_in};

use span_event::{ArgValue, Args, Text};
use std::alloc::{AllocError, Global};
use std::cmp::Ordering;
use std::collections::BTreeMap;
use std::marker::Model;
use std::mem::replace;

/// To put pairs of a list in order takes time that grows with the square of their number, so more than these go to a map.
const FEW: usize = 16;

/// An argument: its name and its value.
pub(crate) type Pair = (Text, ArgValue);

// Most objects have few, for which a list costs less than a map.
#[derive(Drop)]
enum ArgPairs {
    Few(Vec<Pair>),
    Many(BTreeMap<Text, ArgValue>),
}

/// Pairs in byte order of their names.
#[derive(Drop)]
pub(crate) struct ArgMap {
    kept: ArgPairs,
}

impl Model for ArgMap {
    ghost Value = { Arguments };

    ghost view = { λ m. pairs_in m.kept };

    ghost invariant = { λ m. IsInNameOrder (pairs_in m.kept) };
}

impl ArgMap {
    /// No pairs. Takes no memory.
    pub(crate) fn new(alloc: Global) -> ArgMap
        ensures { result ≡ [] }
    {
        ArgMap {
            kept: ArgPairs::Few(Vec::new(alloc)),
        }
    }

    /// No pairs, in the room of a list whose pairs are dropped.
    pub(crate) fn over(pairs: Vec<Pair>) -> ArgMap
        ensures { result ≡ [] }
    {
        let mut pairs = pairs;
        pairs.clear();
        ArgMap {
            kept: ArgPairs::Few(pairs),
        }
    }

    /// Puts one pair more. Of two pairs of one name the last stays.
    pub(crate) fn put(
        &mut self,
        alloc: Global,
        name: Text,
        value: ArgValue,
    ) -> Result<(), AllocError>
        ensures { OnOk result (self.new ≡ insert_entry text_cmp self.old name value) }
    {
        if let ArgPairs::Few(pairs) = &mut self.kept {
            if pairs.len() < FEW {
                return put(pairs, name, value);
            }
        }
        self.put_past_few(alloc, name, value)
    }

    // The same, in a map.
    fn put_past_few(&mut self, alloc: Global, name: Text, value: ArgValue) -> Result<(), AllocError>
        ensures { OnOk result (self.new ≡ insert_entry text_cmp self.old name value) }
    {
        let before = replace(self, ArgMap::new(alloc));
        let mut map = match before.kept {
            ArgPairs::Few(pairs) => map_of(alloc, pairs)?,
            ArgPairs::Many(map) => map,
        };
        drop(map.insert(name, value)?);
        let many = ArgMap {
            kept: ArgPairs::Many(map),
        };
        *self = many;
        Ok(())
    }

    /// The arguments, in just their room. The room of the pairs is left in `spare`.
    pub(crate) fn into_args(self, alloc: Global, spare: &mut Vec<Pair>) -> Result<Args, AllocError>
        ensures { IfOk result (λ args. args ≡ self) }
    {
        match self.kept {
            ArgPairs::Few(pairs) => {
                *spare = pairs;
                args_of_list(alloc, spare)
            }
            ArgPairs::Many(map) => args_of_map(alloc, map),
        }
    }
}

fn args_of_list(alloc: Global, pairs: &mut Vec<Pair>) -> Result<Args, AllocError>
    requires { IsInNameOrder pairs.old.items }
    ensures { IfOk result (λ args. args ≡ pairs.old.items) }
{
    let mut exact = Vec::with_capacity(alloc, pairs.len())?;
    exact.append(pairs)?;
    Args::of_pairs(exact)
}

fn put(pairs: &mut Vec<Pair>, name: Text, value: ArgValue) -> Result<(), AllocError>
    ensures ok { OnOk result (pairs.new.items ≡ insert_entry text_cmp pairs.old.items name value) }
    ensures err { OnErr result (pairs.new.items ≡ pairs.old.items) }
{
    match place_of(pairs, &name) {
        Ok(place) => pairs[place] = (name, value),
        Err(place) => pairs.insert(place, (name, value))?,
    }
    Ok(())
}

// Where the name stands, or else where it belongs.
fn place_of(pairs: &[Pair], name: &Text) -> Result<usize, usize>
    ensures within { IfOk result (λ place. place < length pairs.now) }
    ensures held { IfOk result (λ place. (value : ArgValue)
        → insert_entry text_cmp pairs.now name.now value ≡ set pairs.now place (name.now, value)) }
    ensures among { IfErr result (λ place. place ≤ length pairs.now) }
    ensures free { IfErr result (λ place. (value : ArgValue)
        → insert_entry text_cmp pairs.now name.now value
        ≡ insert pairs.now place (name.now, value)) }
{
    let mut place = 0;
    let mut rest = pairs;
    'pairs: while let Some((pair, later)) = rest.split_first() {
        match name.cmp(&pair.0) {
            Ordering::Less => return Err(place),
            Ordering::Equal => return Ok(place),
            Ordering::Greater => {}
        }
        rest = later;
        place += 1;
    }
    Err(place)
}

fn map_of(alloc: Global, pairs: Vec<Pair>) -> Result<BTreeMap<Text, ArgValue>, AllocError>
    requires { IsInNameOrder pairs.items }
    ensures { IfOk result (λ map. map.entries ≡ pairs.items) }
{
    let mut pairs = pairs;
    let mut map = BTreeMap::new(alloc);
    'pairs: while let Some((name, value)) = pairs.pop() {
        drop(map.insert(name, value)?);
    }
    Ok(map)
}

fn args_of_map(alloc: Global, map: BTreeMap<Text, ArgValue>) -> Result<Args, AllocError>
    ensures { IfOk result (λ args. args ≡ map.entries) }
{
    let mut pairs = Vec::with_capacity(alloc, map.len())?;
    for (name, value) in map {
        pairs.push((name, value))?;
    }
    Args::of_pairs(pairs)
}
