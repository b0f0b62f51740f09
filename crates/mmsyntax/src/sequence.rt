//! A list that contracts see as plain data.

ghost use Rattle.std.specs.Prelude.{◌≡◌, List, IfOk};

use std::alloc::{AllocError, Global};
use std::marker::Model;

/// Items in order. A clause sees the list alone, and not where it lies in memory.
#[derive(Debug)]
pub struct Sequence<T> {
    items: Vec<T>,
}

impl<T> Model for Sequence<T> {
    ghost Value = { List T };

    ghost view = { λ s. s.items.items };
}

// A drop of its own is proved here once: a derived one is proved again in each crate that drops a list.
impl<T: Drop> Drop for Sequence<T> {
    fn drop(self) {
        let Sequence { items: _ } = self;
    }
}

impl<T> Sequence<T> {
    /// The list of these items.
    pub fn from_vec(items: Vec<T>) -> Self
        ensures { result ≡ items.items }
    {
        Sequence { items }
    }

    /// The items, in order, without a copy.
    pub fn into_vec(self) -> Vec<T>
        ensures { result.items ≡ self }
    {
        let Sequence { items } = self;
        items
    }

    /// The items, in order.
    pub fn as_slice(&self) -> &[T]
        ensures { result.now ≡ self.now }
    {
        self.items.as_slice()
    }
}

impl<T: Copy> Sequence<T> {
    /// An equal list in memory of its own.
    pub fn copy(&self, alloc: Global) -> Result<Sequence<T>, AllocError>
        ensures { IfOk result (λ made. made ≡ self.now) }
    {
        Ok(Sequence::from_vec(Vec::from_slice(alloc, self.as_slice())?))
    }
}
