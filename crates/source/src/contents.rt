//! What a source declared, as it is asked for once the source is read: symbols, labels, and assertions by their places.

ghost use Rattle.std.specs.Prelude.{◌≡◌, ◌<◌, ◌||◌, IfOk, length, map, slice_get, Some};
ghost use Rattle.std.specs.Option.{option_map, option_and_then};
ghost use Rattle.std.specs.Str.{bytes_eq};
ghost use Rattle.mmsyntax.specs.Tables.{place_of};
ghost use Rattle.source.specs.Scopes.{Scope, is_in};
ghost use Rattle.source.specs.Views.{seen_words, seen_proof, seen_hypotheses, seen_pairs};

use crate::standing::ProofWords;
use std::alloc::{AllocError, Global};

/// The words of a hypothesis.
#[derive(Debug, Drop)]
pub enum HypothesisWords<'a> {
    /// The label, the type and the variable of a `$f`.
    Typing(&'a [u8], &'a [u8], &'a [u8]),
    /// The label and the symbols of a `$e`.
    Premise(&'a [u8], Vec<&'a [u8]>),
}

/// What a source declared. Its words are slices of the text, and places of assertions count from 0 in order of appearance.
pub trait Declared<'a> {
    // what stands behind the source
    ghost scope: { Self → Scope };

    /// The constants, in order of appearance.
    fn constants(&self) -> &[&'a [u8]]
        ensures { seen_words result.now ≡ (scope self.now).constants };

    /// All labels, in order of appearance, also of closed blocks.
    fn labels(&self) -> &[&'a [u8]]
        ensures { seen_words result.now ≡ (scope self.now).labels };

    /// Whether a word is a symbol or a label of the source, also of a closed block. It is one look-up.
    fn has_name(&self, word: &[u8]) -> bool
        ensures { result ≡ (is_in (scope self.now).symbols word.now || is_in (scope self.now).labels word.now) };

    /// How many assertions there are.
    fn assertions(&self) -> usize
        ensures { result ≡ length (scope self.now).assertions };

    /// The place of the first assertion with a label, if there is one. It is one look-up.
    fn place_of(&self, label: &[u8]) -> Option<usize>
        ensures { result ≡ place_of (λ a. bytes_eq label.now a.label) (scope self.now).assertions };

    /// The label of the assertion at a place.
    fn label(&self, place: usize) -> Option<&'a [u8]>
        ensures { option_map (λ w. w.now) result ≡ option_map (λ a. a.label) (slice_get (scope self.now).assertions place) };

    /// The symbols of the assertion at a place.
    fn statement(&self, place: usize) -> Option<&[&'a [u8]]>
        ensures { option_map (λ ws. seen_words ws.now) result
            ≡ option_map (λ a. a.statement) (slice_get (scope self.now).assertions place) };

    /// The words of the proof of the assertion at a place: none of an axiom.
    fn proof(&self, place: usize) -> Option<&ProofWords<'a>>
        ensures { option_map (λ p. seen_proof p.now) result
            ≡ option_and_then (λ a. a.proof) (slice_get (scope self.now).assertions place) };

    /// The hypotheses that are active at the assertion at a place, in order of appearance: those that its proof may name.
    fn active(&self, alloc: Global, place: usize) -> Result<Vec<&HypothesisWords<'a>>, AllocError>
        requires { place < length (scope self.now).assertions }
        ensures { IfOk result (λ hs. option_map (λ a. a.active) (slice_get (scope self.now).assertions place)
            ≡ Some (seen_hypotheses hs.items)) };

    /// The mandatory hypotheses of the assertion at a place, in order of appearance.
    fn mandatory(
        &self,
        alloc: Global,
        place: usize,
    ) -> Result<Vec<&HypothesisWords<'a>>, AllocError>
        requires { place < length (scope self.now).assertions }
        ensures { IfOk result (λ hs. option_map (λ a. a.hypotheses) (slice_get (scope self.now).assertions place)
            ≡ Some (seen_hypotheses hs.items)) };

    /// The pairs that are active at the assertion at a place, in order of appearance.
    fn pairs(&self, alloc: Global, place: usize) -> Result<Vec<(&'a [u8], &'a [u8])>, AllocError>
        requires { place < length (scope self.now).assertions }
        ensures { IfOk result (λ ps. option_map (λ a. a.pairs) (slice_get (scope self.now).assertions place)
            ≡ Some (seen_pairs ps.items)) };
}
