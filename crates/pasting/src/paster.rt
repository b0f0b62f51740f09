//! Scripts with the proofs of a library in the stead of those in the words of a source.

ghost use Rattle.std.specs.Prelude.{◌≡◌, ◌++◌, Bool, None, IfOk, IfErr, List, OnOk, length, map};
ghost use Rattle.mmtext.specs.Text.{Token as Word};
ghost use Rattle.mmtext.specs.Views.{seen};
ghost use Rattle.source.specs.Scopes.{Assertion};
ghost use Rattle.source.specs.Whole.{IsWhole};
ghost use Rattle.mmsyntax.specs.Tables.{Contents};
ghost use Rattle.expanding.specs.Views.{IsLaid, seen_scripts};
ghost use Rattle.pasting.specs.Places.{places_in};
ghost use Rattle.pasting.specs.Pasted.{AreAdditions, IsPasted, Proving as Proved, given_in, pasted, paste_fault};
ghost use Rattle.pasting.specs.Views.{AreKnown, IsNarrow, IsPaster, IsProving, IsUnpasted, IsFaultIn, IsWithin};
ghost use Rattle.pasting.specs.Views.{places_by, given_words, seen_given};

use crate::additions::{Additions, Citing};
use crate::given::Given;
use crate::placing::Placed;
use crate::proving::{Proving, Theorem, proving_of};
use crate::reading::{given, given_to_addition};
use crate::steps::put_steps;
use crate::theorem::floats_of;
use crate::unpasted::Unpasted;
use crate::words::is_compressed;
use expanding::Laid;
use mmsyntax::{Database, Proof};
use mmtext::Token;
use prooftrees::Roles;
use sites::{Sites, sites_of};
use source::Declared;
use spreading::part_length;
use std::alloc::{AllocError, Global};
use std::hash::RandomState;

/// Puts proofs of a library in the stead of those that scripts write in the words of the source that it is taken of.
#[derive(Drop)]
pub struct Paster<'p, 'a> {
    sites: Sites<'a>,
    database: &'p Database,
}

/// Puts a command with the steps of a library's proof in the stead of its proof.
fn put_given(
    alloc: Global,
    database: &Database,
    proving: &Proving<'_, '_, '_, '_>,
    steps: &Proof,
    laid: &mut Laid,
) -> Result<(), AllocError>
    ensures { OnOk result ((ts : List Word) → IsLaid ts laid.old
        → IsLaid (ts ++ given_words database.now.prelude proving.now steps.now) laid.new) }
{
    laid.put_words(proving.cut.front)?;
    put_steps(alloc, database.prelude(), proving, steps, laid)?;
    laid.put_words(proving.cut.back)
}

impl<'p, 'a: 'p> Paster<'p, 'a> {
    /// For a source and the library that is taken of it, as flags say of each assertion of the source.
    ///
    /// # Errors
    ///
    /// Want of memory.
    pub fn new<D: Declared<'a>>(
        alloc: Global,
        keys: RandomState,
        declared: &D,
        database: &'p Database,
        flags: &[bool],
    ) -> Result<Paster<'p, 'a>, AllocError>
        requires whole { IsWhole (D.scope declared.now) }
        requires flags { length flags.now ≡ length (D.scope declared.now).assertions }
        requires narrow { IsNarrow (D.scope declared.now) flags.now }
        ensures { IfOk result (IsPaster (D.scope declared.now) flags.now database.now) }
    {
        let Some(sites) = sites_of(alloc, keys, declared, flags)? else {
            unreachable!()
        };
        Ok(Paster { sites, database })
    }

    /// What scripts add to the library.
    ///
    /// It costs as much as their words, and for each `add` as much as the `$f` of the library.
    ///
    /// # Errors
    ///
    /// Want of memory.
    pub fn additions<'w: 'p>(
        &self,
        alloc: Global,
        keys: RandomState,
        scripts: &[Vec<Token<'w>>],
    ) -> Result<Additions<'p>, AllocError>
        ensures { IfOk result (λ made. (xs : List Assertion)
            × AreAdditions (places_by self.now) self.now.database.now.prelude (seen_scripts scripts.now) xs
            × AreKnown (places_by self.now) self.now.database.now.prelude xs made) }
    {
        let floats = floats_of(alloc, &self.sites, self.database)?;
        Additions::new(alloc, keys, floats, scripts)
    }

    /// What the words of a command say as the proof that it gives.
    fn given<'w: 'a, D: Declared<'a>>(
        &self,
        alloc: Global,
        keys: RandomState,
        declared: &D,
        additions: &Additions<'_>,
        proving: &Proving<'_, '_, '_, 'w>,
    ) -> Result<Given<'w>, AllocError>
        requires whole { IsWhole (D.scope declared.now) }
        requires within { IsWithin (D.scope declared.now) proving.now.theorem }
        ensures { IfOk result (λ g. (xs : List Assertion) (r : Proved)
            → AreKnown (places_by self.now) self.now.database.now.prelude xs additions.now
            → IsProving (places_by self.now) self.now.database.now.prelude (D.scope declared.now) proving.now r
            → seen_given g ≡ given_in (places_by self.now) (D.scope declared.now) xs r) }
    {
        let placed = Placed {
            sites: &self.sites,
            database: self.database,
            additions,
        };
        let mut citing = Citing {
            declared,
            additions,
        };
        match &proving.theorem {
            Theorem::Standing(place) => {
                let roles = Roles::new(alloc, keys, declared.active(alloc, *place)?)?;
                let mandatory = declared.mandatory(alloc, *place)?;
                given(alloc, &mut citing, &placed, &roles, mandatory, proving)
            }
            Theorem::Reproved(addition) => {
                given_to_addition(alloc, keys, &mut citing, &placed, addition, proving)
            }
            Theorem::Added(addition) => {
                given_to_addition(alloc, keys, &mut citing, &placed, addition, proving)
            }
        }
    }

    /// Puts a part, with a proof of the library where it gives one in the words of the source.
    fn put_part<'w: 'a, D: Declared<'a>>(
        &self,
        alloc: Global,
        keys: RandomState,
        declared: &D,
        additions: &Additions<'_>,
        part: &[Token<'w>],
        laid: &mut Laid,
    ) -> Result<(), Unpasted<'w>>
        requires whole { IsWhole (D.scope declared.now) }
        ensures pasted { let m = places_by self.now in let t = self.now.database.now.prelude in let s = D.scope declared.now in
            OnOk result ((xs : List Assertion) → AreKnown m t xs additions.now → (ts : List Word) → IsLaid ts laid.old
            → IsLaid (ts ++ pasted m t s xs (map seen part.now)) laid.new) }
        ensures fits { let m = places_by self.now in let t = self.now.database.now.prelude in let s = D.scope declared.now in
            OnOk result ((xs : List Assertion) → AreKnown m t xs additions.now → paste_fault m t s xs (map seen part.now) ≡ None) }
        ensures faulty { let m = places_by self.now in let t = self.now.database.now.prelude in let s = D.scope declared.now in
            IfErr result (λ why. (xs : List Assertion) → AreKnown m t xs additions.now
            → IsFaultIn (paste_fault m t s xs (map seen part.now)) why) }
    {
        let Some(proving) = proving_of(alloc, declared, additions, part)? else {
            laid.put_words(part)?;
            return Ok(());
        };
        match self.given(alloc, keys, declared, additions, &proving)? {
            Given::Steps(steps) => put_given(alloc, self.database, &proving, &steps, laid)?,
            Given::Untaken => laid.put_words(part)?,
            Given::Faulty(word, kind) => {
                if is_compressed(proving.cut.proof) {
                    return Err(Unpasted::Faulty(word, kind));
                }
                laid.put_words(part)?;
            }
        }
        Ok(())
    }

    /// The words of a script, with the steps of the library in the stead of each proof that it gives, in the source's own words, to a
    /// theorem of the source or to one that scripts add.
    ///
    /// A proof costs as much as its words and letters and its listing, the frames of the assertions that it cites, and the hypotheses that
    /// are active there. The words outlive those of the source, since the tree of a proof has labels of both.
    ///
    /// # Errors
    ///
    /// The first compressed proof that is none at its theorem; want of memory.
    pub fn paste<'w: 'a, D: Declared<'a>>(
        &self,
        alloc: Global,
        keys: RandomState,
        declared: &D,
        additions: &Additions<'_>,
        words: &[Token<'w>],
    ) -> Result<Laid, Unpasted<'w>>
        requires whole { IsWhole (D.scope declared.now) }
        ensures pasted { (flags : List Bool) (db : Contents) (xs : List Assertion) → IsPaster (D.scope declared.now) flags db self.now
            → AreKnown (places_in (D.scope declared.now) flags db) db.prelude xs additions.now
            → IfOk result (λ laid. (out : List Word) × IsLaid out laid
            × IsPasted (places_in (D.scope declared.now) flags db) db.prelude (D.scope declared.now) xs (map seen words.now) out) }
        ensures faulty { (flags : List Bool) (db : Contents) (xs : List Assertion) → IsPaster (D.scope declared.now) flags db self.now
            → AreKnown (places_in (D.scope declared.now) flags db) db.prelude xs additions.now → IfErr result
            (IsUnpasted (places_in (D.scope declared.now) flags db) db.prelude (D.scope declared.now) xs (map seen words.now)) }
    {
        let mut laid = Laid::new(alloc);
        let mut at = 0;
        while at < words.len() {
            let rest = &words[at..];
            let part = &rest[..part_length(rest)];
            self.put_part(alloc, keys, declared, additions, part, &mut laid)?;
            at += part.len();
        }
        Ok(laid)
    }
}
