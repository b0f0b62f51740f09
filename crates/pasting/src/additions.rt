//! What scripts add, and what a proof in one may cite.

ghost use Rattle.std.specs.Prelude.{◌≡◌, ◌++◌, IfOk, List, OnOk, is_some, map, option_map};
ghost use Rattle.std.specs.List.{flat_map};
ghost use Rattle.std.specs.Str.{bytes_eq};
ghost use Rattle.mmsyntax.specs.Tables.{place_of};
ghost use Rattle.mmtext.specs.Views.{seen};
ghost use Rattle.source.specs.Scopes.{Assertion};
ghost use Rattle.source.specs.Views.{seen_hypothesis};
ghost use Rattle.taking.specs.Names.{Map};
ghost use Rattle.mmsyntax.specs.Tables.{Tables};
ghost use Rattle.spreading.specs.Forms.{AreParts, Part};
ghost use Rattle.expanding.specs.Views.{seen_scripts};
ghost use Rattle.pasting.specs.Additions.{added_by, floats_of};
ghost use Rattle.pasting.specs.Pasted.{AreAdditions};
ghost use Rattle.pasting.specs.Views.{AreKnown, AreNoted, at_label, flags_in, seen_addition};

use crate::addition::{Addition, addition_of};
use crate::theorem::mandatory_of;
use mmsyntax::Sequence;
use mmtext::Token;
use prooftrees::{CitedFrames, flags_of};
use sites::Indexed;
use source::{Declared, HypothesisWords};
use spreading::part_length;
use std::alloc::{AllocError, Global};
use std::hash::RandomState;

/// What scripts add to a library.
#[derive(Drop)]
pub struct Additions<'x> {
    /// The `$f` of the library, with the labels that they have in the source.
    pub(crate) floats: Vec<HypothesisWords<'x>>,
    /// The labels of what is added.
    pub(crate) labels: Indexed<'x>,
    /// Whether each mandatory hypothesis is a `$f`, in order of appearance.
    pub(crate) flags: Vec<Sequence<bool>>,
    /// What is added.
    pub(crate) added: Vec<Addition<'x>>,
}

/// The same, while scripts are gone through.
#[derive(Drop)]
struct Noted<'x> {
    labels: Vec<&'x [u8]>,
    flags: Vec<Sequence<bool>>,
    added: Vec<Addition<'x>>,
}

/// Notes what a part adds. After an error nothing is said of what is noted.
fn note_part<'x>(
    alloc: Global,
    floats: &[HypothesisWords<'x>],
    part: &[Token<'x>],
    noted: &mut Noted<'x>,
) -> Result<(), AllocError>
    ensures { OnOk result ((m : Map) (t : Tables) (xs : List Assertion) → map seen_hypothesis floats.now ≡ floats_of m t
        → AreNoted m t xs noted.old → AreNoted m t (xs ++ added_by m t (map seen part.now)) noted.new) }
{
    let Some(addition) = addition_of(alloc, part)? else {
        return Ok(());
    };
    let (premises, statement) = (addition.premises.as_slice(), addition.statement.as_slice());
    let mandatory = mandatory_of(alloc, floats, premises, statement)?;
    noted.flags.push(flags_of(alloc, mandatory)?)?;
    noted.labels.push(addition.label.text)?;
    noted.added.push(addition)?;
    Ok(())
}

/// Notes what a script adds. After an error nothing is said of what is noted.
fn note_script<'x>(
    alloc: Global,
    floats: &[HypothesisWords<'x>],
    words: &[Token<'x>],
    noted: &mut Noted<'x>,
) -> Result<(), AllocError>
    ensures { OnOk result ((m : Map) (t : Tables) (xs : List Assertion) → map seen_hypothesis floats.now ≡ floats_of m t
        → AreNoted m t xs noted.old → (parts : List Part) × AreParts (map seen words.now) parts
        × AreNoted m t (xs ++ flat_map (added_by m t) parts) noted.new) }
{
    let mut at = 0;
    while at < words.len() {
        let rest = &words[at..];
        let part = &rest[..part_length(rest)];
        note_part(alloc, floats, part, noted)?;
        at += part.len();
    }
    Ok(())
}

impl<'x> Additions<'x> {
    /// What these scripts add, where a library has these `$f`.
    pub(crate) fn new<'w: 'x>(
        alloc: Global,
        keys: RandomState,
        floats: Vec<HypothesisWords<'x>>,
        scripts: &[Vec<Token<'w>>],
    ) -> Result<Additions<'x>, AllocError>
        ensures { IfOk result (λ made. (m : Map) (t : Tables) → map seen_hypothesis floats.entry.items ≡ floats_of m t
            → (xs : List Assertion) × AreAdditions m t (seen_scripts scripts.now) xs × AreKnown m t xs made) }
    {
        let mut noted = Noted {
            labels: Vec::new(alloc),
            flags: Vec::new(alloc),
            added: Vec::new(alloc),
        };
        for words in scripts {
            note_script(alloc, floats.as_slice(), words.as_slice(), &mut noted)?;
        }
        let labels = Indexed::new(alloc, keys, noted.labels)?;
        Ok(Additions {
            floats,
            labels,
            flags: noted.flags,
            added: noted.added,
        })
    }

    /// Whether scripts add an assertion with a label: one look-up.
    pub(crate) fn have(&self, label: &[u8]) -> bool
        ensures { result ≡ is_some (place_of (bytes_eq label.now) self.now.labels) }
    {
        self.labels.place(label).is_some()
    }

    /// Whether each mandatory hypothesis of the assertion with a label is a `$f`, if scripts add one: one look-up.
    fn flags(&self, label: &[u8]) -> Option<&Sequence<bool>>
        ensures { option_map (λ f. f.now) result ≡ at_label self.now.labels self.now.flags.items label.now }
    {
        let place = self.labels.place(label)?;
        self.flags.get(place)
    }

    /// The first assertion with a label that scripts add, if they add one: one look-up.
    pub(crate) fn addition(&self, label: &[u8]) -> Option<&Addition<'x>>
        ensures { option_map (λ a. seen_addition a.now) result
            ≡ at_label self.now.labels (map seen_addition self.now.added.items) label.now }
    {
        let place = self.labels.place(label)?;
        self.added.get(place)
    }
}

/// What a proof may cite.
#[derive(Drop)]
pub(crate) struct Citing<'c, 'x, D> {
    /// The source.
    pub declared: &'c D,
    /// What scripts add.
    pub additions: &'c Additions<'x>,
}

impl<'c, 'x, 'a, D: Declared<'a>> CitedFrames<'a> for Citing<'c, 'x, D> {
    ghost use Rattle.pasting.specs.Views.{flags_in};

    ghost floats = { λ c w. flags_in (D.scope c.declared.now).assertions c.additions.now w };

    ghost assertions = { λ c. (D.scope c.declared.now).assertions };

    ghost is_right = { λ c. Unit {0} };

    fn floats(
        &mut self,
        alloc: Global,
        label: &[u8],
    ) -> Result<Option<Sequence<bool>>, AllocError> {
        if let Some(place) = self.declared.place_of(label) {
            let mandatory = self.declared.mandatory(alloc, place)?;
            return Ok(Some(flags_of(alloc, mandatory)?));
        }
        match self.additions.flags(label) {
            Some(flags) => Ok(Some(flags.copy(alloc)?)),
            None => Ok(None),
        }
    }
}

/// Whether an assertion with a label may be cited.
pub(crate) fn may_cite<'a, D: Declared<'a>>(citing: &Citing<'_, '_, D>, label: &[u8]) -> bool
    ensures { result ≡ is_some (flags_in (D.scope citing.now.declared.now).assertions citing.now.additions.now label.now) }
{
    citing.declared.place_of(label).is_some() || citing.additions.flags(label).is_some()
}
