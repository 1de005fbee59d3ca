//! The long texts that were read last.
ghost use Rattle.std.specs.Prelude.{◌≡◌, IfOk};

use span_event::Text;
use std::alloc::{AllocError, Global};

/// A file has few long names, each many times. The last ones are searched at one place each, whatever a file holds.
const PLACES: usize = 4096;

/// Long texts that were read before, each at a place that its bytes give. Equal texts share their bytes by it.
#[derive(Drop)]
pub(crate) struct RecentTexts {
    places: Vec<Text>,
}

impl RecentTexts {
    pub(crate) fn new(alloc: Global) -> Result<RecentTexts, AllocError> {
        let mut places = Vec::with_capacity(alloc, PLACES)?;
        for _ in 0..PLACES {
            places.push(Text::empty(alloc))?;
        }
        Ok(RecentTexts { places })
    }

    /// Of which no text is found. Takes no memory.
    pub(crate) fn none(alloc: Global) -> RecentTexts {
        RecentTexts {
            places: Vec::new(alloc),
        }
    }

    /// A text of these bytes: of a long one a copy of that which was read before, if it is still there.
    #[inline]
    pub(crate) fn text(&mut self, alloc: Global, text: &str) -> Result<Text, AllocError>
        ensures { IfOk result (λ t. t ≡ text.now) }
    {
        if text.len() <= Text::SHORT {
            return Text::of(alloc, text);
        }
        self.long_text(alloc, text)
    }

    fn long_text(&mut self, alloc: Global, text: &str) -> Result<Text, AllocError>
        ensures { IfOk result (λ t. t ≡ text.now) }
    {
        match self.places.get_mut(place_of(text)) {
            Some(recent) => {
                if recent.as_str() != text {
                    *recent = Text::of(alloc, text)?;
                }
                recent.try_clone(alloc)
            }
            None => Text::of(alloc, text),
        }
    }
}

// Names mostly differ at their ends, and two words are hashed sooner than all bytes.
fn place_of(text: &str) -> usize {
    let bytes = text.as_bytes();
    let (before, _) = bytes.split_at(bytes.len().saturating_sub(8));
    let mixed = last_word(bytes) ^ last_word(before).rotate_left(29);
    (mixed.wrapping_mul(0x9E37_79B9_7F4A_7C15) >> 52) as usize % PLACES
}

// The last eight bytes as a number, or 0 where there are fewer.
fn last_word(bytes: &[u8]) -> u64 {
    match bytes.last_chunk::<8>() {
        Some(word) => u64::from_le_bytes(*word),
        None => 0,
    }
}
