ghost use Rattle.std.specs.Prelude.{◌≡◌, ◌++◌, ◌∷◌, [], length, slice_get, take, option_map, IfOk, OnOk, OnErr};

use crate::failure::NoMemory;
use std::alloc::Global;
use std::marker::Model;

/// A list of items, in the order in which they were pushed.
#[derive(Debug, Drop)]
pub struct Items<T> {
    items: Vec<T>,
}

impl<T> Model for Items<T> {
    ghost use Rattle.std.specs.Prelude.{List};

    ghost Value = { List T };

    ghost view = { λ i. i.items.items };
}

impl<T> Items<T> {
    /// No items.
    pub fn new(alloc: Global) -> Items<T>
        ensures { result ≡ [] }
    {
        Items {
            items: Vec::new(alloc),
        }
    }

    /// How many items there are.
    pub fn len(&self) -> usize
        ensures { result ≡ length self.now }
    {
        self.items.len()
    }

    /// The item at a place, from 0, or `None` past the last.
    pub fn at(&self, place: usize) -> Option<&T>
        ensures { option_map (λ item. item.now) result ≡ slice_get self.now place }
    {
        self.items.get(place)
    }

    /// The items, lent.
    pub fn as_slice(&self) -> &[T]
        ensures { result.now ≡ self.now }
    {
        self.items.as_slice()
    }
}

impl<T: Drop> Items<T> {
    /// Makes room for so many items more.
    pub fn reserve(&mut self, more: usize) -> Result<(), NoMemory>
        ensures { self.new ≡ self.old }
    {
        self.items.reserve(more)?;
        Ok(())
    }

    /// Adds an item behind the others.
    pub fn push(&mut self, item: T) -> Result<(), NoMemory>
        ensures ok { OnOk result (self.new ≡ self.old ++ item ∷ []) }
        ensures err { OnErr result (self.new ≡ self.old) }
    {
        self.items.push(item)?;
        Ok(())
    }

    /// Keeps so many items from the first on, or all where there are fewer.
    pub fn cut(&mut self, len: usize)
        ensures kept { self.new ≡ take len self.old }
    {
        self.items.truncate(len);
    }
}

impl<T: Copy> Items<T> {
    /// Adds other items behind these.
    pub fn add(&mut self, others: &Items<T>) -> Result<(), NoMemory>
        ensures ok { OnOk result (self.new ≡ self.old ++ others.now) }
        ensures err { OnErr result (self.new ≡ self.old) }
    {
        self.items.extend_from_slice(others.as_slice())?;
        Ok(())
    }

    /// The same items once more.
    pub fn copy(&self) -> Result<Items<T>, NoMemory>
        ensures { IfOk result (λ copy. copy ≡ self.now) }
    {
        let items = Vec::from_slice(*self.items.allocator(), self.as_slice())?;
        Ok(Items { items })
    }
}
