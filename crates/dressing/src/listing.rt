//! The steps that a proof lists where it stands in a source.

ghost use Rattle.std.specs.Prelude.{◌≡◌, ◌<◌, All, IfOk, IfSome, List, Some, is_some, length, slice_get, take};
ghost use Rattle.std.specs.List.{list_any};
ghost use mathlib.Core.Bool.{not};
ghost use Rattle.mmtext.specs.Words.{Word};
ghost use Rattle.source.specs.Scopes.{Assertion};
ghost use Rattle.source.specs.Views.{seen_proof, seen_words};
ghost use Rattle.source.specs.Whole.{IsWhole, labels_in};
ghost use Rattle.taking.specs.Names.{Map};
ghost use Rattle.taking.specs.Walks.{TakesAll};
ghost use Rattle.prooftrees.specs.Forms.{IsTree};
ghost use Rattle.prooftrees.specs.Names.{labelled};
ghost use Rattle.prooftrees.specs.Roles.{looks_up, role_of};
ghost use Rattle.dressing.specs.Quoted.{is_unnamed, listed_tree, lists};

use mmsyntax::{Label, MOST_STEPS, Proof, Step};
use prooftrees::{InFront, ProofTree, Roles, read_given};
use sites::Indexed;
use source::{Declared, ProofWords};
use std::alloc::{AllocError, Global};
use std::hash::RandomState;
use taking::{StepPlaces, is_unfinished, list};

/// The labels of a source, each of which names itself.
#[derive(Drop)]
pub(crate) struct OwnNames<'a> {
    labels: Indexed<'a>,
}

impl<'a> OwnNames<'a> {
    /// Those of a source.
    pub(crate) fn of<D: Declared<'a>>(
        alloc: Global,
        keys: RandomState,
        declared: &D,
    ) -> Result<OwnNames<'a>, AllocError>
        ensures { IfOk result (λ made. made.labels ≡ (D.scope declared.now).labels) }
    {
        let labels = Vec::from_slice(alloc, declared.labels())?;
        Ok(OwnNames {
            labels: Indexed::new(alloc, keys, labels)?,
        })
    }
}

impl<'a> StepPlaces for OwnNames<'a> {
    ghost use Rattle.dressing.specs.Quoted.{own_names};

    ghost places = { λ n. own_names n.labels };

    fn step(&self, alloc: Global, label: &[u8]) -> Result<Option<Step>, AllocError> {
        if self.labels.place(label).is_none() {
            return Ok(None);
        }
        Ok(Some(Step::Cite(Label::from_slice(alloc, label)?)))
    }
}

/// The labels that stand in a proof, apart from those that its numbers count anyway.
pub(crate) fn labels_in<'p, 'w>(proof: &'p ProofWords<'w>) -> &'p [&'w [u8]]
    ensures { seen_words result.now ≡ labels_in (seen_proof proof.now) }
{
    match proof {
        ProofWords::Normal(words) => words.as_slice(),
        ProofWords::Compressed(labels, _) => labels.as_slice(),
    }
}

/// Whether an assertion with a label stands in front of a place.
fn is_in_front<'a, D: Declared<'a>>(declared: &D, place: usize, label: &[u8]) -> bool
    ensures { result ≡ is_some (labelled (take place (D.scope declared.now).assertions) label.now) }
{
    match declared.place_of(label) {
        Some(found) => found < place,
        None => false,
    }
}

/// Whether each of some labels is that of an active hypothesis, of which these are the roles, or of an assertion in front of a place.
fn are_named<'a, D: Declared<'a>>(
    declared: &D,
    place: usize,
    roles: &Roles<'_>,
    labels: &[&[u8]],
) -> bool
    ensures { (x : Assertion) → ((w : Word) → looks_up roles.now.roles w ≡ role_of x.active w)
        → result ≡ not (list_any (is_unnamed (take place (D.scope declared.now).assertions) x) (seen_words labels.now)) }
{
    for label in labels {
        if !(roles.have(label) || is_in_front(declared, place, label)) {
            return false;
        }
    }
    true
}

/// The steps that list a tree: none where it names what has no step, or has over 16,384.
fn list_tree(alloc: Global, tree: &ProofTree<'_>) -> Result<Option<Proof>, AllocError>
    requires { All (TakesAll tree.now.named.items) tree.now.proof.nodes }
    ensures { (m : Map) (earlier : List Assertion) (x : Assertion) → (is : IsTree m earlier x tree.now)
        → IfOk result (λ steps. steps ≡ listed_tree m earlier x (Some is.tree)) }
{
    let root = tree.proof.root;
    if tree.proof.nodes.size(root) > MOST_STEPS {
        return Ok(None);
    }
    list(alloc, tree.named.as_slice(), &tree.proof.nodes, root)
}

/// The steps that a proof lists as that of the assertion at a place: none where a step isn't there, or it names what isn't, denotes no tree
/// or has over 16,384 steps.
pub(crate) fn listed<'a, D: Declared<'a>>(
    alloc: Global,
    keys: RandomState,
    declared: &D,
    names: &OwnNames<'_>,
    place: usize,
    proof: &ProofWords<'a>,
) -> Result<Option<Proof>, AllocError>
    requires names { names.now.labels ≡ (D.scope declared.now).labels }
    requires whole { IsWhole (D.scope declared.now) }
    requires within { place < length (D.scope declared.now).assertions }
    ensures { IfOk result (λ steps. IfSome (slice_get (D.scope declared.now).assertions place) (λ x.
        steps ≡ lists (D.scope declared.now) (take place (D.scope declared.now).assertions) x (seen_proof proof.now))) }
{
    if is_unfinished(proof) {
        return Ok(None);
    }
    let roles = Roles::new(alloc, keys, declared.active(alloc, place)?)?;
    if !are_named(declared, place, &roles, labels_in(proof)) {
        return Ok(None);
    }
    let mandatory = declared.mandatory(alloc, place)?;
    let mut cited = InFront::new(alloc, declared, place);
    match read_given(alloc, &mut cited, names, &roles, mandatory, proof)? {
        Some(tree) => list_tree(alloc, &tree),
        None => Ok(None),
    }
}
