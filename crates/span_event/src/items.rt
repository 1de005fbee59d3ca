//! The items of a file.
ghost use Rattle.std.specs.Prelude.{◌≡◌, ◌↔◌, List, [], length, slice_get, option_copied, IsTrue};
ghost use Rattle.span_event.specs.declared.item.Item.{Item};

use crate::item::Item;
use std::marker::Model;

/// The items of a file, in the order in which they stand there.
#[derive(Debug, Drop)]
pub struct Items {
    items: Vec<Item>,
}

impl Model for Items {
    ghost Value = { List Item };

    ghost view = { λ i. i.items.items };
}

impl Items {
    /// The list as it is. Takes no memory.
    pub fn of_list(items: Vec<Item>) -> Items
        ensures { result ≡ items.items }
    {
        Items { items }
    }

    pub fn len(&self) -> usize
        ensures { result ≡ length self.now }
    {
        self.items.len()
    }

    pub fn is_empty(&self) -> bool
        ensures { IsTrue result ↔ (self.now ≡ []) }
    {
        self.items.is_empty()
    }

    pub fn get(&self, index: usize) -> Option<&Item>
        ensures { option_copied result ≡ slice_get self.now index }
    {
        self.items.get(index)
    }

    /// The list itself. Takes no memory.
    pub fn into_list(self) -> Vec<Item>
        ensures { result.items ≡ self }
    {
        self.items
    }
}
