//! A list that several owners share.

ghost use Rattle.std.specs.Prelude.{◌≡◌, IfOk};

use std::alloc::{AllocError, Global};
use std::marker::Model;
use std::sync::Arc;

/// Items in order, which several owners share, in any threads: nobody writes them again, and the last owner lets them go. A clause sees the
/// list alone, as it does of a `Sequence`, whose items have one owner.
#[derive(Debug)]
pub struct SharedList<T> {
    items: Arc<Vec<T>, Global>,
}

impl<T> Model for SharedList<T> {
    ghost use Rattle.std.specs.Prelude.{List};
    ghost use Rattle.std.specs.Arc.{arc_value};

    ghost Value = { List T };

    ghost view = { λ s. (arc_value s.items).items };
}

// A drop of its own is proved here once: a derived one is proved again in each crate that drops a list.
impl<T: Drop> Drop for SharedList<T> {
    fn drop(self) {
        let SharedList { items: _ } = self;
    }
}

impl<T: Drop> SharedList<T> {
    /// The items with their first owner. They stay where they are: memory is taken for the count of the owners alone.
    ///
    /// # Errors
    ///
    /// Want of memory. The items are let go.
    pub fn from_vec(alloc: Global, items: Vec<T>) -> Result<Self, AllocError>
        ensures { IfOk result (λ made. made ≡ items.items) }
    {
        let items = Arc::new(alloc, items)?;
        Ok(SharedList { items })
    }
}

impl<T> SharedList<T> {
    /// One more owner of the items. Nothing is copied, and no memory taken.
    ///
    /// # Errors
    ///
    /// The items have 2^63 - 1 owners, and the count is full.
    pub fn share(&self) -> Result<Self, AllocError>
        ensures { IfOk result (λ made. made ≡ self.now) }
    {
        let items = Arc::try_clone(&self.items)?;
        Ok(SharedList { items })
    }

    /// The items, in order.
    pub fn as_slice(&self) -> &[T]
        ensures { result.now ≡ self.now }
    {
        self.items.as_slice()
    }
}
