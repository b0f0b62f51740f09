//! Reading a proof: from its words to its nodes.

ghost use Rattle.std.specs.Prelude.{◌≡◌, ◌<◌, List, length, take, slice_get, false, Some, None, All, IfOk, IfSome, MatchOption};
ghost use Rattle.source.specs.Statements.{Proof};
ghost use Rattle.source.specs.Scopes.{Assertion};
ghost use Rattle.source.specs.Whole.{IsWhole};
ghost use Rattle.source.specs.Proofs.{denoted, is_unfinished};
ghost use Rattle.source.specs.Views.{seen_words, seen_proof, seen_hypotheses};
ghost use Rattle.taking.specs.Walks.{TakesAll};
ghost use Rattle.prooftrees.specs.Frames.{Holds};
ghost use Rattle.taking.specs.Counted.{IsCounted, counted_labels};
ghost use Rattle.prooftrees.specs.Roles.{looks_up};
ghost use Rattle.prooftrees.specs.Names.{AreEnough, AreFrames, IsKnown};
ghost use Rattle.prooftrees.specs.Forms.{IsForm, IsTree};

use crate::cited::{CitedFrames, InFront};
use crate::form::{ProofForm, ProofTree};
use crate::frames::Frames;
use crate::naming::name_labels;
use crate::roles::Roles;
use source::{Declared, HypothesisWords, ProofWords};
use std::alloc::{AllocError, Global};
use std::hash::RandomState;
use std::mem;
use taking::{Counted, StepPlaces, count_labels, decode, is_unfinished};

/// The tree of what the steps of a proof count, where these roles are enough: nothing where they denote none.
fn tree_of<'s, 'a, C: CitedFrames<'s>, P: StepPlaces>(
    alloc: Global,
    cited: &mut C,
    places: &P,
    roles: &Roles<'_>,
    counted: Counted<'a>,
) -> Result<Option<ProofTree<'a>>, AllocError>
    requires { C.is_right cited.old }
    ensures right { C.is_right cited.new }
    ensures assertions { C.assertions cited.new ≡ C.assertions cited.old }
    ensures whole { IfOk result (λ tree. IfSome tree (λ t. All (TakesAll t.named.items) t.proof.nodes)) }
    ensures tree { IfOk result (λ tree. (earlier : List Assertion) (x : Assertion) (proof : Proof) → AreFrames earlier (C.floats cited.old)
        → AreEnough earlier x.active (looks_up roles.now.roles) → All (IsKnown earlier x.active) (seen_words counted.entry.labels.items)
        → IsCounted x.hypotheses proof counted.entry → is_unfinished proof ≡ false
        → MatchOption tree (denoted earlier (record x { proof = Some proof }) ≡ None)
        (IsTree (P.places places.now) earlier (record x { proof = Some proof }))) }
{
    let labels = counted.labels;
    let named = name_labels(alloc, cited, places, roles, labels.as_slice())?;
    let Some(proof) = decode(alloc, named.as_slice(), counted.codes.as_slice())? else {
        return Ok(None);
    };
    Ok(Some(ProofTree {
        labels,
        named,
        proof,
    }))
}

/// The tree that a finished proof with these words denotes, if it denotes one, as the proof of an assertion with these mandatory
/// hypotheses: its nodes are named by the steps that they have in a library. The roles are those of hypotheses that are active there,
/// enough to say what its labels name: of all of them, say.
///
/// It costs what [`read_proof`] does.
///
/// # Errors
///
/// Want of memory, as of [`read_proof`].
pub fn read_given<'s, 'a, C: CitedFrames<'s>, P: StepPlaces>(
    alloc: Global,
    cited: &mut C,
    places: &P,
    roles: &Roles<'_>,
    mandatory: Vec<&HypothesisWords<'a>>,
    proof: &ProofWords<'a>,
) -> Result<Option<ProofTree<'a>>, AllocError>
    requires { C.is_right cited.old }
    ensures right { C.is_right cited.new }
    ensures assertions { C.assertions cited.new ≡ C.assertions cited.old }
    ensures whole { IfOk result (λ tree. IfSome tree (λ t. All (TakesAll t.named.items) t.proof.nodes)) }
    ensures tree { let own = seen_proof proof.now in
        IfOk result (λ tree. (earlier : List Assertion) (x : Assertion) → AreFrames earlier (C.floats cited.old)
        → AreEnough earlier x.active (looks_up roles.now.roles) → x.hypotheses ≡ seen_hypotheses mandatory.entry.items
        → All (IsKnown earlier x.active) (counted_labels x.hypotheses own) → is_unfinished own ≡ false
        → MatchOption tree (denoted earlier (record x { proof = Some own }) ≡ None)
        (IsTree (P.places places.now) earlier (record x { proof = Some own }))) }
{
    let Some(counted) = count_labels(alloc, mandatory, proof)? else {
        return Ok(None);
    };
    tree_of(alloc, cited, places, roles, counted)
}

/// The proof of the assertion at a place: the tree that it denotes, its nodes named by the steps that they have in a library.
///
/// It costs as much as the proof has words and letters, and as the mandatory hypotheses cost; of each assertion that it names the frame is
/// made once. After an error nothing is said of the frames.
///
/// # Errors
///
/// Want of memory. A proof of more than 4,294,967,295 words, or so many active `$e`, would be refused as if memory were wanting: no source,
/// of at most 268,435,456 bytes, has so many.
pub fn read_proof<'a, D: Declared<'a>, P: StepPlaces>(
    alloc: Global,
    keys: RandomState,
    declared: &D,
    frames: &mut Frames,
    places: &P,
    place: usize,
) -> Result<ProofForm<'a>, AllocError>
    requires whole { IsWhole (D.scope declared.now) }
    requires within { place < length (D.scope declared.now).assertions }
    requires frames { Holds (D.scope declared.now).assertions frames.old }
    ensures frames { IfOk result (λ _. Holds (D.scope declared.now).assertions frames.new) }
    ensures form { IfOk result (λ form. IfSome (slice_get (D.scope declared.now).assertions place)
        (λ x. IsForm (P.places places.now) (take place (D.scope declared.now).assertions) x form)) }
{
    let Some(proof) = declared.proof(place) else {
        return Ok(ProofForm::Absent);
    };
    if is_unfinished(proof) {
        return Ok(ProofForm::Unfinished);
    }
    let roles = Roles::new(alloc, keys, declared.mandatory(alloc, place)?)?;
    let mandatory = declared.mandatory(alloc, place)?;
    let mut cited = InFront {
        declared,
        frames: mem::replace(frames, Frames::new(alloc)),
        place,
    };
    let tree = read_given(alloc, &mut cited, places, &roles, mandatory, proof)?;
    *frames = cited.frames;
    match tree {
        Some(tree) => Ok(ProofForm::Tree(tree)),
        // A finished proof denotes a tree in each source.
        None => unreachable!(),
    }
}
