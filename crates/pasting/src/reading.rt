//! Reading a proof in the words of a source: the steps that it has in a library.

ghost use Rattle.std.specs.Prelude.{◌≡◌, ◌++◌, IfOk, List, Some, All, map};
ghost use Rattle.mmtext.specs.Text.{Token as Word};
ghost use Rattle.mmtext.specs.Words.{Word as Label};
ghost use Rattle.mmtext.specs.Views.{seen};
ghost use Rattle.source.specs.Scopes.{Assertion as Theorem, mandatory as mandatory_in};
ghost use Rattle.source.specs.Views.{seen_hypotheses};
ghost use Rattle.mmsyntax.specs.Tables.{Tables};
ghost use Rattle.taking.specs.Names.{Map};
ghost use Rattle.taking.specs.Walks.{TakesAll};
ghost use Rattle.prooftrees.specs.Forms.{IsTree};
ghost use Rattle.prooftrees.specs.Names.{AreFrames};
ghost use Rattle.prooftrees.specs.Roles.{looks_up, role_of};
ghost use Rattle.pasting.specs.Additions.{theorem_of};
ghost use Rattle.pasting.specs.Proofs.{given, given_by_tree};
ghost use Rattle.pasting.specs.Views.{AreKnown, flags_in, places_behind, seen_addition, seen_given};

use crate::addition::Addition;
use crate::additions::Citing;
use crate::given::Given;
use crate::naming::first_unnamed;
use crate::placing::Placed;
use crate::proving::Proving;
use crate::theorem::{all_of, mandatory_of};
use crate::words::{labels_among, proof_of};
use mmsyntax::MOST_STEPS;
use mmtext::{FaultKind, Token};
use prooftrees::{ProofTree, Roles, read_given};
use source::{Declared, HypothesisWords};
use std::alloc::{AllocError, Global};
use std::hash::RandomState;
use taking::{is_unfinished, list};

/// What a tree says as the proof of an assertion, before which others stand: its listing, if that is short.
fn given_by_tree<'w>(
    alloc: Global,
    tree: &ProofTree<'_>,
    first: Token<'w>,
) -> Result<Given<'w>, AllocError>
    requires { All (TakesAll tree.now.named.items) tree.now.proof.nodes }
    ensures { (m : Map) (earlier : List Theorem) (x : Theorem) (last : Word) → (is : IsTree m earlier x tree.now)
        → IfOk result (λ g. seen_given g ≡ given_by_tree m earlier x (seen first.entry) last (Some is.tree)) }
{
    let root = tree.proof.root;
    if tree.proof.nodes.size(root) > MOST_STEPS {
        return Ok(Given::Faulty(first, FaultKind::TooLong));
    }
    match list(alloc, tree.named.as_slice(), &tree.proof.nodes, root)? {
        Some(steps) => Ok(Given::Steps(steps)),
        None => Ok(Given::Untaken),
    }
}

/// What words say as the proof of a theorem, of which these are the mandatory hypotheses, and these the roles of all that are active there.
/// The words outlive those of the source, since the tree of a proof has labels of both.
pub(crate) fn given<'w: 'h, 'h, 'a, D: Declared<'a>>(
    alloc: Global,
    citing: &mut Citing<'_, '_, D>,
    placed: &Placed<'_, '_, '_>,
    roles: &Roles<'_>,
    mandatory: Vec<&HypothesisWords<'h>>,
    proving: &Proving<'_, '_, '_, 'w>,
) -> Result<Given<'w>, AllocError>
    ensures { let c = citing.old in let r = proving.now in
        IfOk result (λ g. (earlier : List Theorem) (x : Theorem)
        → AreFrames earlier (flags_in (D.scope c.declared.now).assertions c.additions.now)
        → ((w : Label) → looks_up roles.now.roles w ≡ role_of x.active w) → x.hypotheses ≡ seen_hypotheses mandatory.entry.items
        → mandatory_in x.active x.statement ≡ x.hypotheses
        → seen_given g ≡ given (places_behind placed.now) earlier x (map seen r.cut.proof.now) (seen r.ends)) }
{
    let (words, ends) = (proving.cut.proof, proving.ends);
    let Some(first) = words.first() else {
        return Ok(Given::Faulty(ends, FaultKind::BadToken));
    };
    let Some(proof) = proof_of(alloc, proving.cut.proof)? else {
        return Ok(Given::Faulty(ends, FaultKind::BadToken));
    };
    if is_unfinished(&proof) {
        return Ok(Given::Faulty(*first, FaultKind::OutOfProfile));
    }
    if let Some(word) = first_unnamed(citing, roles, labels_among(words)) {
        return Ok(Given::Faulty(word, FaultKind::UnknownLabel));
    }
    match read_given(alloc, citing, placed, roles, mandatory, &proof)? {
        Some(tree) => given_by_tree(alloc, &tree, *first),
        None => Ok(Given::Faulty(ends, FaultKind::BadToken)),
    }
}

/// What words say as the proof of an assertion that scripts add.
pub(crate) fn given_to_addition<'w, 'a, D: Declared<'a>>(
    alloc: Global,
    keys: RandomState,
    citing: &mut Citing<'_, '_, D>,
    placed: &Placed<'_, '_, '_>,
    addition: &Addition<'_>,
    proving: &Proving<'_, '_, '_, 'w>,
) -> Result<Given<'w>, AllocError>
    ensures { let c = citing.old in let r = proving.now in
        IfOk result (λ g. (m : Map) (t : Tables) (xs : List Theorem) → AreKnown m t xs c.additions.now
        → seen_given g ≡ given (places_behind placed.now) ((D.scope c.declared.now).assertions ++ xs)
        (theorem_of m t (seen_addition addition.now)) (map seen r.cut.proof.now) (seen r.ends)) }
{
    let (floats, premises) = (
        citing.additions.floats.as_slice(),
        addition.premises.as_slice(),
    );
    let roles = Roles::new(alloc, keys, all_of(alloc, floats, premises)?)?;
    let statement = addition.statement.as_slice();
    let mandatory = mandatory_of(alloc, floats, premises, statement)?;
    given(alloc, citing, placed, &roles, mandatory, proving)
}
