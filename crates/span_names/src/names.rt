//! The numbers of names.
ghost use Rattle.std.specs.Prelude.{◌≡◌, ◌-◌, ◌<◌, ◌^◌, List, ℕ, [], Some, length, slice_get, take, option_copied, IfOk, IsTrue, OnOk, OnErr};
ghost use Rattle.span_names.specs.Numbering.{number_in, with_name};

use crate::hash_keys::HashKeys;
use indexmap::IndexSet;
use span_event::Text;
use std::alloc::{AllocError, Global};
use std::marker::Model;

/// How many texts are found without hashing them.
const RECENT: usize = 256;

/// Distinct texts, numbered from 0 in the order of their first use.
#[derive(Drop)]
pub struct Names {
    texts: IndexSet<Text, HashKeys>,
    // The numbers of texts that were asked for lately, each at a place that the text's length and last bytes give. The text of a number
    // is compared before the number is used, so any number may stand here.
    recent: [usize; RECENT],
}

impl Model for Names {
    ghost use Rattle.std.specs.Prelude.{◌<◌, ◌^◌, List, ℕ, length};

    ghost Value = { List (List ℕ) };

    ghost view = { λ n. n.texts.keys };

    ghost invariant = { λ n. length n.texts.keys < 2 ^ 32 };
}

impl Names {
    /// No names, of input that is trusted. Takes no memory.
    pub fn new(alloc: Global) -> Names
        ensures { result ≡ [] }
    {
        Names::with_keys(alloc, HashKeys::fixed())
    }

    /// No names, which are looked up by these keys. Takes no memory.
    pub fn with_keys(alloc: Global, keys: HashKeys) -> Names
        ensures { result ≡ [] }
    {
        Names {
            texts: IndexSet::with_hasher(alloc, keys),
            recent: [0; RECENT],
        }
    }

    /// How many names there are.
    pub fn count(&self) -> u32
        ensures { result ≡ length self.now }
    {
        self.texts.len() as u32
    }

    /// The number of `text`, which gets the next one where it has none. Only a new text takes memory.
    pub fn number_of(&mut self, text: &Text) -> Result<u32, AllocError>
        requires { length self.old < 2 ^ 32 - 1 }
        ensures number { IfOk result (λ number. number_in self.new text.now ≡ Some number) }
        ensures names { OnOk result (self.new ≡ with_name self.old text.now) }
        ensures err { OnErr result (self.new ≡ self.old) }
    {
        let place = place_of(text);
        let recent = self.recent[place];
        if self.has_at(recent, text) {
            return Ok(recent as u32);
        }
        let number = self.add(text)?;
        self.recent[place] = number as usize;
        Ok(number)
    }

    // Whether `text` has that number.
    fn has_at(&self, number: usize, text: &Text) -> bool
        ensures { IsTrue result → number_in self.now text.now ≡ Some number }
    {
        match self.texts.as_slice().get(number) {
            Some(found) => found == text,
            None => false,
        }
    }

    fn add(&mut self, text: &Text) -> Result<u32, AllocError>
        requires { length self.old < 2 ^ 32 - 1 }
        ensures number { IfOk result (λ number. number_in self.new text.now ≡ Some number) }
        ensures names { OnOk result (self.new ≡ with_name self.old text.now) }
        ensures err { OnErr result (self.new ≡ self.old) }
    {
        if let Some(number) = self.find(text) {
            return Ok(number);
        }
        let copy = text.try_clone(*self.texts.allocator())?;
        let (index, _) = self.texts.insert_full(copy)?;
        Ok(index as u32)
    }

    /// The number of `text`, where it has one.
    pub fn find(&self, text: &Text) -> Option<u32>
        ensures { result ≡ number_in self.now text.now }
    {
        let number = self.texts.get_index_of(text)?;
        Some(number as u32)
    }

    /// The text that has this number.
    pub fn text_of(&self, number: u32) -> Option<&Text>
        ensures { option_copied result ≡ slice_get self.now number }
    {
        self.texts.get_index(number as usize)
    }

    /// Keeps the first `count` names, as before the later ones were numbered.
    pub fn truncate(&mut self, count: u32)
        ensures { self.new ≡ take count self.old }
    {
        self.texts.truncate(count as usize);
    }
}

// Names differ by their lengths and ends, mostly.
fn place_of(text: &Text) -> usize
    ensures { result < 256 }
{
    let bytes = text.as_str().as_bytes();
    let ends = match bytes {
        [] => 0,
        [only] => usize::from(*only),
        [.., before, last] => usize::from(*before) * 16 + usize::from(*last),
    };
    (bytes.len() % RECENT * 31 + ends) % RECENT
}
