//! Which mandatory hypotheses of assertions are `$f`, made once for each.

ghost use Rattle.std.specs.Prelude.{◌≡◌, ◌<◌, List, map, length, slice_get, Some, IfOk, IfSome, OnOk};
ghost use Rattle.std.specs.Option.{option_map};
ghost use Rattle.source.specs.Scopes.{Assertion};
ghost use Rattle.source.specs.Views.{seen_hypothesis, seen_hypotheses};
ghost use Rattle.taking.specs.Settings.{is_float};
ghost use Rattle.prooftrees.specs.Frames.{Holds};

use mmsyntax::Sequence;
use source::{Declared, HypothesisWords};
use std::alloc::{AllocError, Global};

/// For assertions by their places: whether each of their mandatory hypotheses is a `$f`, in order of appearance, once it was asked for.
pub struct Frames {
    pub(crate) floats: Vec<Option<Sequence<bool>>>,
}

// Proved here once: a derived drop is proved again in each crate that drops such a value.
impl Drop for Frames {
    fn drop(self) {
        let Frames { floats: _ } = self;
    }
}

/// Whether a hypothesis is a `$f`.
fn is_float(hypothesis: &HypothesisWords<'_>) -> bool
    ensures { result ≡ is_float (seen_hypothesis hypothesis.now) }
{
    match hypothesis {
        HypothesisWords::Typing(..) => true,
        HypothesisWords::Premise(..) => false,
    }
}

/// Whether each of these hypotheses is a `$f`.
///
/// # Errors
///
/// Want of memory.
pub fn flags_of(
    alloc: Global,
    hypotheses: Vec<&HypothesisWords<'_>>,
) -> Result<Sequence<bool>, AllocError>
    ensures { IfOk result (λ flags. flags ≡ map is_float (seen_hypotheses hypotheses.entry.items)) }
{
    let mut flags = Vec::with_capacity(alloc, hypotheses.len())?;
    for hypothesis in hypotheses {
        flags.push(is_float(hypothesis))?;
    }
    Ok(Sequence::from_vec(flags))
}

impl Frames {
    /// None was asked for yet.
    pub fn new(alloc: Global) -> Frames
        ensures { (xs : List Assertion) → Holds xs result }
    {
        Frames {
            floats: Vec::new(alloc),
        }
    }

    /// What is kept of the assertion at a place.
    fn kept(&self, place: usize) -> Option<&Sequence<bool>>
        ensures { IfSome result (λ flags. slice_get self.now.floats.items place ≡ Some (Some flags.now)) }
    {
        self.floats.get(place)?.as_ref()
    }

    /// There is room for what is kept at a place. After an error what was kept is still kept.
    fn make_room(&mut self, place: usize) -> Result<(), AllocError>
        ensures room { OnOk result (place < length self.new.floats.items) }
        ensures holds { (xs : List Assertion) → Holds xs self.old → Holds xs self.new }
    {
        while self.floats.len() <= place {
            self.floats.push(None)?;
        }
        Ok(())
    }

    /// It is kept. After an error what was kept is still kept.
    fn keep(&mut self, place: usize, flags: Sequence<bool>) -> Result<(), AllocError>
        ensures { (xs : List Assertion) → Holds xs self.old
            → option_map (λ x. map is_float x.hypotheses) (slice_get xs place) ≡ Some flags → Holds xs self.new }
    {
        self.make_room(place)?;
        self.floats[place] = Some(flags);
        Ok(())
    }

    /// Whether each mandatory hypothesis of the assertion at a place is a `$f`, in order of appearance. It is made once. After an error
    /// what was kept is still kept.
    pub(crate) fn flags<'a, D: Declared<'a>>(
        &mut self,
        alloc: Global,
        declared: &D,
        place: usize,
    ) -> Result<Sequence<bool>, AllocError>
        requires within { place < length (D.scope declared.now).assertions }
        requires holds { Holds (D.scope declared.now).assertions self.old }
        ensures holds { Holds (D.scope declared.now).assertions self.new }
        ensures flags { IfOk result (λ flags. option_map (λ x. map is_float x.hypotheses)
            (slice_get (D.scope declared.now).assertions place) ≡ Some flags) }
    {
        if let Some(flags) = self.kept(place) {
            return flags.copy(alloc);
        }
        let mandatory = declared.mandatory(alloc, place)?;
        let flags = flags_of(alloc, mandatory)?;
        let copy = flags.copy(alloc)?;
        self.keep(place, copy)?;
        Ok(flags)
    }
}
