//! The frames of the assertions that a proof may cite, by their labels.

ghost use Rattle.std.specs.Prelude.{◌≡◌, ◌<◌, Bool, IfOk, IfSome, List, None, Option, cond, find, length, map, nat_lt, slice_get, take};
ghost use Rattle.std.specs.Option.{option_map};
ghost use Rattle.std.specs.Str.{bytes_eq};
ghost use Rattle.mmtext.specs.Words.{Word};
ghost use Rattle.source.specs.Scopes.{Assertion};
ghost use Rattle.prooftrees.specs.Frames.{Holds};

use crate::frames::Frames;
use mmsyntax::Sequence;
use source::Declared;
use std::alloc::{AllocError, Global};

/// The frames of the assertions that a proof may cite, by their labels. They may be made once they are asked for.
pub trait CitedFrames<'a> {
    // of each label: whether each mandatory hypothesis of its assertion is a $f, in order of appearance
    ghost floats: { Self → Word → Option (List Bool) };

    // assertions among which labels are looked for
    ghost assertions: { Self → List Assertion };

    // what was made is right
    ghost is_right: { Self → Type 0 };

    /// Whether each mandatory hypothesis of the assertion with a label is a `$f`, in order of appearance; nothing where none has the label.
    ///
    /// # Errors
    ///
    /// Want of memory: what was made is still right.
    fn floats(&mut self, alloc: Global, label: &[u8]) -> Result<Option<Sequence<bool>>, AllocError>
        requires { is_right self.old }
        ensures right { is_right self.new }
        ensures same { (w : Word) → floats self.new w ≡ floats self.old w }
        ensures assertions { assertions self.new ≡ assertions self.old }
        ensures value { IfOk result (λ found. found ≡ floats self.old label.now) };
}

/// The assertions of a source in front of a place, with what was made of their frames.
#[derive(Drop)]
pub struct InFront<'c, D> {
    pub(crate) declared: &'c D,
    pub(crate) frames: Frames,
    pub(crate) place: usize,
}

impl<'c, D> InFront<'c, D> {
    /// Those in front of a place, of which nothing was made yet.
    pub fn new(alloc: Global, declared: &'c D, place: usize) -> InFront<'c, D>
        ensures frames { (xs : List Assertion) → Holds xs result.frames }
        ensures declared { result.declared.now ≡ declared.entry.now }
        ensures place { result.place ≡ place }
    {
        InFront {
            declared,
            frames: Frames::new(alloc),
            place,
        }
    }
}

impl<'c, 'a, D: Declared<'a>> CitedFrames<'a> for InFront<'c, D> {
    ghost use Rattle.std.specs.Prelude.{find, map, take};
    ghost use Rattle.std.specs.Option.{option_map};
    ghost use Rattle.std.specs.Str.{bytes_eq};
    ghost use Rattle.taking.specs.Settings.{is_float};
    ghost use Rattle.prooftrees.specs.Frames.{Holds};

    ghost floats = { λ c w. option_map (λ a. map is_float a.hypotheses)
        (find (λ a. bytes_eq w a.label) (take c.place (D.scope c.declared.now).assertions)) };

    ghost assertions = { λ c. (D.scope c.declared.now).assertions };

    ghost is_right = { λ c. Holds (D.scope c.declared.now).assertions c.frames };

    fn floats(
        &mut self,
        alloc: Global,
        label: &[u8],
    ) -> Result<Option<Sequence<bool>>, AllocError> {
        let Some(cited) = self.declared.place_of(label) else {
            return Ok(None);
        };
        if cited >= self.place {
            return Ok(None);
        }
        Ok(Some(self.frames.flags(alloc, self.declared, cited)?))
    }
}
