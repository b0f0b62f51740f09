//! Which names are free: no name of the source, none that was given, no `L` beside a label `L.k`, and none with a dot.

ghost use Rattle.std.specs.Prelude.{◌≡◌, ◌||◌, ◌&&◌, false, IfOk, OnOk};
ghost use mathlib.Core.Bool.{not};
ghost use Rattle.std.specs.Str.{bytes_eq};
ghost use Rattle.mmtext.specs.Words.{Word, has_dot};
ghost use Rattle.source.specs.Scopes.{is_in};
ghost use Rattle.source.specs.Views.{seen_words};
ghost use Rattle.taking.specs.Names.{is_fresh};
ghost use Rattle.source.specs.Views.{has};
ghost use Rattle.sites.specs.Changes.{has_given, HasNothing, HasTrunks};

use mmsyntax::trunk;
use mmtext::contains_dot;
use source::Declared;
use std::alloc::{AllocError, Global};
use std::collections::HashSet;
use std::hash::RandomState;
use taking::FreeNames;

/// The names that may be given: no symbol or label of a source has them, none was given yet, none is L of a label L.k that is taken, and
/// none has a dot.
pub(crate) struct Free<'d, 'a, D: Declared<'a>> {
    alloc: Global,
    declared: &'d D,
    trunks: HashSet<&'a [u8], RandomState>,
    given: HashSet<Vec<u8>, RandomState>,
}

// Proved here once: a derived drop is proved again at each exit that drops such a value.
impl<'d, 'a, D: Declared<'a>> Drop for Free<'d, 'a, D> {
    fn drop(self) {
        let Free {
            alloc: _,
            declared: _,
            trunks: _,
            given: _,
        } = self;
    }
}

impl<'d, 'a, D: Declared<'a>> FreeNames for Free<'d, 'a, D> {
    ghost is_free = { λ f w. is_fresh (D.scope f.declared.now) w
        && (not (has f.trunks w) && (not (has_given f.given w) && not (has_dot w))) };

    fn is_free(&self, name: &[u8]) -> bool {
        !self.declared.has_name(name)
            && !self.trunks.contains(&name)
            && !self.given.contains(name)
            && !contains_dot(name)
    }

    fn note(&mut self, name: &[u8]) -> Result<(), AllocError> {
        let key = Vec::from_slice(self.alloc, name)?;
        self.given.insert(key)?;
        Ok(())
    }
}

impl<'d, 'a, D: Declared<'a>> Free<'d, 'a, D> {
    /// None was given yet. Each of these labels is taken.
    pub(crate) fn new(
        alloc: Global,
        keys: RandomState,
        declared: &'d D,
        labels: &[&'a [u8]],
    ) -> Result<Free<'d, 'a, D>, AllocError>
        ensures declared { IfOk result (λ made. made.declared.now ≡ declared.now) }
        ensures trunks { IfOk result (λ made. HasTrunks made.trunks (seen_words labels.now)) }
        ensures given { IfOk result (λ made. HasNothing made.given) }
    {
        Ok(Free {
            alloc,
            declared,
            trunks: trunks_of(alloc, keys, labels)?,
            given: HashSet::with_hasher(alloc, keys),
        })
    }
}

/// The L of labels L.k, and each other label whole.
fn trunks_of<'a>(
    alloc: Global,
    keys: RandomState,
    labels: &[&'a [u8]],
) -> Result<HashSet<&'a [u8], RandomState>, AllocError>
    ensures { IfOk result (λ made. HasTrunks made (seen_words labels.now)) }
{
    let mut trunks = HashSet::with_hasher(alloc, keys);
    for label in labels {
        trunks.insert(trunk(*label))?;
    }
    Ok(trunks)
}
