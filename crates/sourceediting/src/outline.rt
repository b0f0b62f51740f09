//! Where assertions and blocks stand among the items of a source.

use items::{Item, Kind};
use leaving::Part;
use std::alloc::{AllocError, Global};
use std::collections::HashMap;
use std::hash::RandomState;

/// Items of a source: so many stand in front of them, and so many up to the last of them.
#[derive(Clone, Copy)]
pub(crate) struct Stretch {
    pub first: usize,
    pub end: usize,
}

/// An assertion of a source.
#[derive(Clone, Copy)]
pub(crate) struct Outlined<'s> {
    pub label: &'s [u8],
    /// So many items stand in front of it.
    pub place: usize,
    /// So many stand in front of what describes it, or else of itself.
    pub first: usize,
    /// The outermost block that it stands in, if it stands in one.
    pub block: Option<usize>,
}

/// An outermost block of a source.
#[derive(Clone, Copy)]
struct Block {
    stretch: Stretch,
    /// How many assertions stand in it.
    assertions: usize,
}

/// The assertions and the outermost blocks of a source, each in order.
#[derive(Drop)]
pub(crate) struct Outline<'s> {
    pub assertions: Vec<Outlined<'s>>,
    blocks: Vec<Block>,
}

/// How far items were walked over.
#[derive(Drop)]
struct ItemWalk<'s> {
    outline: Outline<'s>,
    /// How many blocks are open.
    depth: usize,
    /// Whether a description was the last item.
    is_described: bool,
}

impl<'s> ItemWalk<'s> {
    /// A block opens in front of which so many items stand.
    fn open(&mut self, place: usize) -> Result<(), AllocError> {
        if self.depth == 0 {
            let end = place.saturating_add(1);
            let stretch = Stretch { first: place, end };
            self.outline.blocks.push(Block {
                stretch,
                assertions: 0,
            })?;
        }
        self.depth = self.depth.saturating_add(1);
        Ok(())
    }

    /// A block closes, up to which so many items stand.
    fn close(&mut self, end: usize) {
        self.depth = self.depth.saturating_sub(1);
        if self.depth == 0
            && let Some(block) = self.outline.blocks.last_mut()
        {
            block.stretch.end = end;
        }
    }

    /// An assertion, in front of which so many items stand.
    fn assert(&mut self, label: &'s [u8], place: usize) -> Result<(), AllocError> {
        let block = if self.depth > 0 {
            self.outline.blocks.len().checked_sub(1)
        } else {
            None
        };
        self.outline.assertions.push(Outlined {
            label,
            place,
            first: place.saturating_sub(usize::from(self.is_described)),
            block,
        })?;
        if let Some(number) = block
            && let Some(block) = self.outline.blocks.get_mut(number)
        {
            block.assertions = block.assertions.saturating_add(1);
        }
        Ok(())
    }

    /// The next item, in front of which so many stand.
    fn take(&mut self, kind: Kind<'s>, part: Part, place: usize) -> Result<(), AllocError> {
        match kind {
            Kind::Opening => self.open(place)?,
            Kind::Closing => self.close(place.saturating_add(1)),
            Kind::Assertion(label) => self.assert(label, place)?,
            Kind::Comment | Kind::Other => {}
        }
        self.is_described = part == Part::Description;
        Ok(())
    }
}

/// The outline of a source by its items, each of which plays a part.
pub(crate) fn outline_of<'s>(
    alloc: Global,
    items: &[Item<'s>],
    parts: &[Part],
) -> Result<Outline<'s>, AllocError> {
    let mut walk = ItemWalk {
        outline: Outline {
            assertions: Vec::new(alloc),
            blocks: Vec::new(alloc),
        },
        depth: 0,
        is_described: false,
    };
    for (place, (item, part)) in items.iter().zip(parts).enumerate() {
        walk.take(item.kind, *part, place)?;
    }
    let ItemWalk { outline, .. } = walk;
    Ok(outline)
}

impl<'s> Outline<'s> {
    /// The assertions by their labels, each by its number.
    pub(crate) fn by_label(
        &self,
        alloc: Global,
        keys: RandomState,
    ) -> Result<HashMap<&'s [u8], usize, RandomState>, AllocError> {
        let mut numbers = HashMap::with_hasher(alloc, keys);
        for (number, standing) in self.assertions.as_slice().iter().enumerate() {
            numbers.insert(standing.label, number)?;
        }
        Ok(numbers)
    }

    /// How many outermost blocks there are.
    pub(crate) fn blocks(&self) -> usize {
        self.blocks.len()
    }

    /// The outermost block that an assertion stands in.
    fn block_of(&self, standing: &Outlined<'_>) -> Option<&Block> {
        self.blocks.get(standing.block?)
    }

    /// The outermost block that the assertion with a number stands in, if it stands in one.
    pub(crate) fn outermost_at(&self, number: usize) -> Option<usize> {
        self.assertions.get(number)?.block
    }

    /// The outermost block that an assertion stands in, or else itself with what describes it.
    pub(crate) fn whole(&self, standing: &Outlined<'_>) -> Stretch {
        match self.block_of(standing) {
            Some(block) => block.stretch,
            None => Stretch {
                first: standing.first,
                end: standing.place.saturating_add(1),
            },
        }
    }

    /// Whether no other assertion stands in the outermost block that an assertion stands in.
    pub(crate) fn is_alone(&self, standing: &Outlined<'_>) -> bool {
        match self.block_of(standing) {
            Some(block) => block.assertions <= 1,
            None => true,
        }
    }
}
