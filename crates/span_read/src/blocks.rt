//! Items in blocks: a list that grows without moving what it has, and whose memory is let go while it is gone through.
ghost use Rattle.std.specs.Prelude.{◌≡◌, ◌∷◌, ◌++◌, ◌+◌, ◌<◌, ◌≤◌, [], length, All, IfOk, IfSome, IfNone, OnErr, OnOk, vec_len, vec_capacity};
ghost use Rattle.std.specs.Vec.Iter.{into_iter_items};
ghost use Rattle.span_read.specs.Blocks.{HasItems, in_blocks, of_block};

use span_event::Item;
use std::alloc::{AllocError, Global};
use std::marker::Model;
use std::mem::replace;
use std::vec::IntoIter;

/// How many items a block has at most where they are told one by one: it takes half a MiB.
pub(crate) const BLOCK: usize = 4096;

/// A block of more items gets all its room at once: the system has it back as soon as it is let go.
const FEW: usize = 64;

/// Items in their order, in blocks of memory.
#[derive(Debug, Drop)]
pub struct ItemBlocks {
    alloc: Global,
    // How many items a block has at most.
    size: usize,
    // Each has an item.
    full: Vec<Vec<Item>>,
    last: Vec<Item>,
    // How many items all blocks have.
    len: usize,
}

impl Model for ItemBlocks {
    ghost use Rattle.std.specs.Prelude.{◌≡◌, ◌++◌, All, List, length};
    ghost use Rattle.span_read.specs.{Item as TheItem, Blocks.{HasItems, in_blocks}};

    ghost Value = { List TheItem };

    ghost view = { λ b. in_blocks b.full.items ++ b.last.items };

    ghost invariant = { λ b. (b.len ≡ length (in_blocks b.full.items ++ b.last.items)) × All HasItems b.full.items };
}

impl ItemBlocks {
    /// No items. Takes no memory.
    pub(crate) fn new(alloc: Global, size: usize) -> ItemBlocks
        ensures { result ≡ [] }
    {
        ItemBlocks {
            alloc,
            size,
            full: Vec::new(alloc),
            last: Vec::new(alloc),
            len: 0,
        }
    }

    pub fn len(&self) -> usize
        ensures { result ≡ length self.now }
    {
        self.len
    }

    pub(crate) fn push(&mut self, item: Item) -> Result<(), AllocError>
        ensures items { OnOk result (self.new ≡ self.old ++ item ∷ []) }
    {
        let len = self.len.checked_add(1).ok_or(AllocError)?;
        if !self.last.is_empty() && self.last.len() >= self.size {
            self.full.reserve(1)?;
            let block = Vec::with_capacity(self.alloc, self.size)?;
            self.full.push_reserved(replace(&mut self.last, block));
        }
        push_item(&mut self.last, item, self.size)?;
        self.len = len;
        Ok(())
    }

    /// Puts these items behind the others. No item is moved.
    pub(crate) fn join(&mut self, items: ItemBlocks) -> Result<(), AllocError>
        ensures items { OnOk result (self.new ≡ self.old ++ items) }
    {
        let len = self.len.checked_add(items.len).ok_or(AllocError)?;
        let blocks = items.full.len().checked_add(1).ok_or(AllocError)?;
        self.full.reserve(blocks)?;
        let mut full = items.full;
        push_block(&mut self.full, replace(&mut self.last, items.last));
        self.full.append(&mut full)?;
        self.len = len;
        Ok(())
    }

    /// All items as one list. Moves none where they are in one block.
    pub(crate) fn into_list(self) -> Result<Vec<Item>, AllocError>
        ensures { IfOk result (λ list. list.items ≡ self) }
    {
        if self.full.is_empty() {
            return Ok(self.last);
        }
        let mut list = Vec::with_capacity(self.alloc, self.len)?;
        let mut last = self.last;
        for mut block in self.full {
            list.append(&mut block)?;
        }
        list.append(&mut last)?;
        Ok(list)
    }

    /// The items in their order, each taken out of its block.
    pub fn into_remaining(self) -> RemainingItems
        ensures { result ≡ self }
    {
        let none = Vec::new(self.alloc);
        RemainingItems {
            block: none.into_iter(),
            blocks: self.full.into_iter(),
            last: Some(self.last),
        }
    }
}

// Puts an item into a block, which has room for all once it has more than few, if blocks have a bound.
fn push_item(block: &mut Vec<Item>, item: Item, size: usize) -> Result<(), AllocError>
    ensures items { OnOk result (block.new.items ≡ block.old.items ++ item ∷ []) }
    ensures err { OnErr result (block.new.items ≡ block.old.items) }
{
    if block.len() == FEW && size == BLOCK {
        block.reserve(BLOCK - FEW)?;
    }
    block.push(item)?;
    Ok(())
}

// Puts a block behind the others, if it has an item.
fn push_block(full: &mut Vec<Vec<Item>>, block: Vec<Item>)
    requires room { vec_len full.old < vec_capacity full.old }
    ensures items { in_blocks full.new.items ≡ in_blocks full.old.items ++ block.items }
    ensures each { All HasItems full.old.items → All HasItems full.new.items }
    ensures len { vec_len full.new ≤ vec_len full.old + 1 }
    ensures capacity { vec_capacity full.new ≡ vec_capacity full.old }
{
    if !block.is_empty() {
        full.push_reserved(block);
    }
}

/// The items that are left of a list in blocks. A block's memory is let go once its last item was taken.
#[derive(Drop)]
pub struct RemainingItems {
    block: IntoIter<Item>,
    // Each has an item.
    blocks: IntoIter<Vec<Item>>,
    last: Option<Vec<Item>>,
}

impl Model for RemainingItems {
    ghost use Rattle.std.specs.{Prelude.{◌++◌, All, List}, Vec.Iter.into_iter_items};
    ghost use Rattle.span_read.specs.{Item as TheItem, Blocks.{HasItems, in_blocks, of_block}};

    ghost Value = { List TheItem };

    ghost view = { λ r. into_iter_items r.block ++ (in_blocks (into_iter_items r.blocks) ++ of_block r.last) };

    ghost invariant = { λ r. All HasItems (into_iter_items r.blocks) };
}

impl RemainingItems {
    /// Takes the first item, if one is left.
    pub fn next(&mut self) -> Option<Item>
        ensures first { IfSome result (λ item. self.old ≡ item ∷ self.new) }
        ensures none { IfNone result (self.old ≡ []) }
    {
        if let Some(item) = self.block.next() {
            return Some(item);
        }
        let block = next_block(&mut self.blocks, &mut self.last)?;
        self.block = block.into_iter();
        self.block.next()
    }
}

// The next block, behind which are those that are left; the last one, which may have no item, once no other is.
fn next_block(blocks: &mut IntoIter<Vec<Item>>, last: &mut Option<Vec<Item>>) -> Option<Vec<Item>>
    requires { All HasItems (into_iter_items blocks.old) }
    ensures each { All HasItems (into_iter_items blocks.new) }
    ensures items { IfSome result (λ block. in_blocks (into_iter_items blocks.old) ++ of_block last.old
        ≡ block.items ++ (in_blocks (into_iter_items blocks.new) ++ of_block last.new)) }
    ensures last { IfSome result (λ block. block.items ≡ []
        → in_blocks (into_iter_items blocks.new) ++ of_block last.new ≡ []) }
    ensures none { IfNone result (in_blocks (into_iter_items blocks.old) ++ of_block last.old ≡ []) }
{
    match blocks.next() {
        Some(block) => Some(block),
        None => last.take(),
    }
}
