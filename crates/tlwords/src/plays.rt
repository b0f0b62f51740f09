//! What each step tells. These types are for the proofs alone.
#![tactic(auto)]

ghost use Rattle.std.specs.Prelude.{ℕ, ◌-◌, List, [], Option, None};
ghost use Rattle.tlwords.specs.Plays.{sampled, looked, loaded, relooked, took, drew, checked, stored, released, recalled, refreshed, advanced, filled, fetched, newcomer, witness, told_by, given_up, bare};
ghost use Rattle.tlwords.specs.Views.{nobody};

use crate::law::Law;
use crate::view::View;
use atomic_table::{Join, Play, Split};
use std::marker::{Brand, PhantomData};

/// What a call tells a step that the step's words do not show: the value to be stored later, the note, and the words of a range.
pub(crate) trait Said<N> {
    ghost value: { ℕ };

    ghost note: { Option N };

    ghost words: { List ℕ };
}

impl<N> Said<N> for Brand {
    ghost value = { 0 };

    ghost note = { None };

    ghost words = { [] };
}

/// Makes a seat for a pass of the first seat.
pub(crate) struct Deal;

impl<S, N> Split<View<S, N>> for Deal {
    ghost left = { λ v. record v { rights = v.rights - 1 } };

    ghost right = { newcomer };
}

/// Tells one seat what another has seen.
pub(crate) struct Tell;

impl<S, N> Split<View<S, N>> for Tell {
    ghost left = { λ v. v };

    ghost right = { witness };
}

impl<S, N> Join<View<S, N>> for Tell {
    ghost both = { told_by };

    ghost spent = { nobody };
}

/// Gives a pass up to another one.
pub(crate) struct GiveUp;

impl<S, N> Join<View<S, N>> for GiveUp {
    ghost both = { given_up };

    ghost spent = { nobody };
}

/// Samples the clock.
pub(crate) struct Begin<L> {
    law: PhantomData<L>,
}

impl<L: Law> Play<(), View<L::Setting, L::Note>> for Begin<L> {
    ghost then = { bare (sampled L.terms) };
}

/// First look at a lock word.
pub(crate) struct Look<L> {
    law: PhantomData<L>,
}

impl<L: Law> Play<(), View<L::Setting, L::Note>> for Look<L> {
    ghost then = { bare (looked L.terms) };
}

/// Load of a value word.
pub(crate) struct Load<L> {
    law: PhantomData<L>,
}

impl<L: Law> Play<(), View<L::Setting, L::Note>> for Load<L> {
    ghost then = { bare (loaded L.terms) };
}

/// Second look at a lock word.
pub(crate) struct Relook<L> {
    law: PhantomData<L>,
}

impl<L: Law> Play<(), View<L::Setting, L::Note>> for Relook<L> {
    ghost then = { bare (relooked L.terms) };
}

/// One try to lock a cell.
pub(crate) struct Take<L, G> {
    law: PhantomData<(L, G)>,
}

impl<L: Law, G: Said<L::Note>> Play<(), View<L::Setting, L::Note>> for Take<L, G> {
    ghost then = { bare (took L.terms G.value) };
}

/// Advances the clock.
pub(crate) struct Draw<L, G> {
    law: PhantomData<(L, G)>,
}

impl<L: Law, G: Said<L::Note>> Play<(), View<L::Setting, L::Note>> for Draw<L, G> {
    ghost then = { bare (drew L.terms G.note) };
}

/// Look at the lock word of a cell that was read, after the draw.
pub(crate) struct Check<L> {
    law: PhantomData<L>,
}

impl<L: Law> Play<(), View<L::Setting, L::Note>> for Check<L> {
    ghost then = { bare (checked L.terms) };
}

/// Store of a value word.
pub(crate) struct Store<L> {
    law: PhantomData<L>,
}

impl<L: Law> Play<(), View<L::Setting, L::Note>> for Store<L> {
    ghost then = { bare (stored L.terms) };
}

/// Store of a lock word.
pub(crate) struct Release<L> {
    law: PhantomData<L>,
}

impl<L: Law> Play<(), View<L::Setting, L::Note>> for Release<L> {
    ghost then = { bare (released L.terms) };
}

/// Load of the spare word, which adds a call that wrote nothing to those of the pass.
pub(crate) struct Recall<L, G> {
    law: PhantomData<(L, G)>,
}

impl<L: Law, G: Said<L::Note>> Play<(), View<L::Setting, L::Note>> for Recall<L, G> {
    ghost then = { bare (recalled L.terms G.note) };
}

/// Load of the spare word, to see the history so far.
pub(crate) struct Refresh<L> {
    law: PhantomData<L>,
}

impl<L: Law> Play<(), View<L::Setting, L::Note>> for Refresh<L> {
    ghost then = { bare (refreshed L.terms) };
}

/// Advances the tail of the store.
pub(crate) struct Advance<L, G> {
    law: PhantomData<(L, G)>,
}

impl<L: Law, G: Said<L::Note>> Play<(), View<L::Setting, L::Note>> for Advance<L, G> {
    ghost then = { bare (advanced L.terms G.words) };
}

/// Store of a word of the store.
pub(crate) struct Fill<L> {
    law: PhantomData<L>,
}

impl<L: Law> Play<(), View<L::Setting, L::Note>> for Fill<L> {
    ghost then = { bare (filled L.terms) };
}

/// Load of a word of the store.
pub(crate) struct Fetch<L> {
    law: PhantomData<L>,
}

impl<L: Law> Play<(), View<L::Setting, L::Note>> for Fetch<L> {
    ghost then = { bare (fetched L.terms) };
}
