//! The items of a schedule.
ghost use Rattle.std.specs.Prelude.{◌≡◌, ◌==◌, [], ◌∷◌, ◌++◌, OnOk, OnErr, length};

use crate::item::Item;
use std::alloc::{AllocError, Global};
use std::marker::Model;

/// What a schedule asks for, in the order of its lines, read from a text or made in code. Contracts see the list of its items.
#[derive(Debug, Drop)]
pub struct Schedule {
    items: Vec<Item>,
}

impl Model for Schedule {
    ghost use Rattle.std.specs.Prelude.{List};
    ghost use Rattle.fw_schedule.specs.declared.item.Item.{Item};

    ghost Value = { List Item };

    ghost view = { λ schedule. schedule.items.items };
}

impl Schedule {
    /// Nothing asked for yet, in memory from `alloc`. `Schedule::add` takes items of a flow.
    pub fn new(alloc: Global) -> Self
        ensures { result ≡ [] }
    {
        Schedule {
            items: Vec::new(alloc),
        }
    }

    // Puts an item behind the others.
    pub(crate) fn push(&mut self, item: Item) -> Result<(), AllocError>
        ensures ok { OnOk result (self.new ≡ self.old ++ item ∷ []) }
        ensures err { OnErr result (self.new ≡ self.old) }
    {
        self.items.push(item)?;
        Ok(())
    }

    /// The items as a slice.
    pub fn as_slice(&self) -> &[Item]
        ensures { result.now ≡ self.now }
    {
        self.items.as_slice()
    }

    /// How many items there are.
    pub fn len(&self) -> usize
        ensures { result ≡ length self.now }
    {
        self.items.len()
    }

    /// Whether there is no item.
    pub fn is_empty(&self) -> bool
        ensures { result ≡ (length self.now == 0) }
    {
        self.items.is_empty()
    }
}
