//! A library with its stand-ins.

ghost use Rattle.std.specs.Prelude.{◌≡◌, ◌++◌, ◌≤◌, ◌<◌, ◌^◌, ◌∷◌, [], All, Contains, IfOk, IfErr, List, OnOk, length, map};
ghost use Rattle.std.specs.List.{flat_map, range_with_len};
ghost use Rattle.std.specs.Option.{option_map};
ghost use Rattle.derivation.specs.Databases.{AllCheck};
ghost use Rattle.derivation.specs.declared.fault.ProofFaultKind;
ghost use Rattle.drafts.specs.Drafts.{contents_of};
ghost use Rattle.mmsyntax.specs.declared.statement.Step.TheVariants.{Float as FloatStep, Hyp, Cite};
ghost use Rattle.mmsyntax.specs.Tables.{Contents};
ghost use Rattle.standins.specs.StandIns.{StandIn as SeenStandIn, axiom_as, leaning, own_steps, with_stand_ins};
ghost use Rattle.standins.specs.declared.opening.Unopened.TheVariants.{NoMemory};
ghost use Rattle.standins.specs.Views.{IsUnopened, axiom_found, axiom_pairs, seen_stand_ins};

use crate::standing::StandIn;
use derivation::{ProofFault, ProofFaultKind};
use drafts::{Draft, Undeclared, declare};
use giving::LabelMap;
use intake::copied_labels;
use mmframes::frame_of;
use mmsyntax::{Assertion, Database, Float, Frame, Kind, Label, Prelude, Proof, Sequence, StepRef};
use proofcheck::check_all;
use std::alloc::{AllocError, Global};
use std::hash::RandomState;
use std::thread::Threads;

/// Why a library isn't opened with its stand-ins.
#[derive(Clone, Copy, Debug, PartialEq, Eq)]
pub enum Unopened {
    /// With them it passes a limit of libraries, or doesn't verify.
    Unlawful,
    /// Memory ran out.
    NoMemory,
}

impl From<AllocError> for Unopened {
    ghost use Rattle.std.specs.Prelude.{◌≡◌};
    ghost use Rattle.standins.specs.declared.opening.Unopened.TheVariants.{NoMemory};

    ghost from_gives = { λ _ why. why ≡ NoMemory };

    fn from(_error: AllocError) -> Unopened {
        Unopened::NoMemory
    }
}

/// Puts steps for the mandatory `$f` of a frame.
fn put_floats(alloc: Global, proof: &mut Proof, floats: &[u32]) -> Result<(), AllocError>
    requires { All (λ place. place < 2 ^ 30) floats.now }
    ensures { OnOk result (proof.new ≡ proof.old ++ map (λ place. FloatStep place) floats.now) }
{
    for place in floats {
        proof.push(alloc, 0, StepRef::Float(*place))?;
    }
    Ok(())
}

/// Puts steps for so many hypotheses.
fn put_hypotheses(alloc: Global, proof: &mut Proof, count: usize) -> Result<(), AllocError>
    requires { count ≤ 2 ^ 30 }
    ensures { OnOk result (proof.new ≡ proof.old ++ map (λ k. Hyp k) (range_with_len 0 count)) }
{
    for place in 0..count {
        proof.push(alloc, 0, StepRef::Hyp(place as u32))?;
    }
    Ok(())
}

/// The steps of a proof that cites an axiom over the hypotheses of a frame.
fn citing(alloc: Global, frame: &Frame, cited: &[u8]) -> Result<Proof, AllocError>
    requires floats { All (λ place. place < 2 ^ 30) frame.now.floats }
    requires hypotheses { length frame.now.hyps ≤ 2 ^ 30 }
    ensures { IfOk result (λ proof. proof ≡ own_steps frame.now ++ Cite cited.now ∷ []) }
{
    let mut proof = Proof::new(alloc);
    put_floats(alloc, &mut proof, frame.floats.as_slice())?;
    put_hypotheses(alloc, &mut proof, frame.hyps.as_slice().len())?;
    proof.push(alloc, 0, StepRef::Cite(cited))?;
    Ok(proof)
}

/// An assertion of a library, which is a theorem whose proof cites an axiom, if it has one.
fn leaning(
    alloc: Global,
    database: &Database,
    assertion: &Assertion,
    cited: Option<&[u8]>,
) -> Result<Assertion, AllocError>
    requires { Contains database.now.assertions assertion.now }
    ensures { IfOk result (λ made. made ≡ leaning database.now.prelude assertion.now (option_map (λ w. w.now) cited.entry)) }
{
    let same = assertion.copy(alloc)?;
    let Some(cited) = cited else {
        return Ok(same);
    };
    // For the proof: the database has a spelling, so its places are small.
    let _spelled = database.assertions();
    let frame = frame_of(alloc, database.prelude(), assertion)?;
    Ok(Assertion {
        kind: Kind::Theorem,
        proof: citing(alloc, &frame, cited)?,
        ..same
    })
}

/// Puts the axiom for an assertion, if it has one.
fn put_axiom(
    alloc: Global,
    made: &mut Vec<Assertion>,
    assertion: &Assertion,
    cited: Option<&[u8]>,
) -> Result<(), AllocError>
    ensures { OnOk result (made.new.items ≡ made.old.items ++ axiom_as assertion.now (option_map (λ w. w.now) cited.entry)) }
{
    if let Some(cited) = cited {
        let same = assertion.copy(alloc)?;
        made.push(Assertion {
            label: Label::from_slice(alloc, cited)?,
            ..same
        })?;
    }
    Ok(())
}

/// The theorems that lean on axioms, each with its axiom.
fn axioms_of<'s>(
    alloc: Global,
    keys: RandomState,
    stand_ins: &'s [StandIn],
) -> Result<LabelMap<'s>, AllocError>
    ensures { IfOk result (λ made. made ≡ axiom_pairs (seen_stand_ins stand_ins.now)) }
{
    let mut pairs = Vec::with_capacity(alloc, stand_ins.len())?;
    for stand_in in stand_ins {
        pairs.push((stand_in.theorem.as_slice(), stand_in.cited.as_slice()))?;
    }
    LabelMap::new(alloc, keys, pairs)
}

/// Puts the axioms for assertions.
fn put_axioms(
    alloc: Global,
    made: &mut Vec<Assertion>,
    assertions: &[Assertion],
    axioms: &LabelMap<'_>,
) -> Result<(), AllocError>
    ensures { OnOk result (made.new.items
        ≡ made.old.items ++ flat_map (λ a. axiom_as a (axiom_found axioms.now a.label)) assertions.now) }
{
    for assertion in assertions {
        let cited = axioms.text_for(assertion.label.as_slice());
        put_axiom(alloc, made, assertion, cited)?;
    }
    Ok(())
}

/// Puts the assertions of a library: those that have axioms lean on them.
fn put_theorems(
    alloc: Global,
    made: &mut Vec<Assertion>,
    database: &Database,
    axioms: &LabelMap<'_>,
) -> Result<(), AllocError>
    ensures { OnOk result (made.new.items ≡ made.old.items
        ++ map (λ a. leaning database.now.prelude a (axiom_found axioms.now a.label)) database.now.assertions) }
{
    for assertion in database.assertions() {
        let cited = axioms.text_for(assertion.label.as_slice());
        made.push(leaning(alloc, database, assertion, cited)?)?;
    }
    Ok(())
}

/// The assertions of a library, with its stand-ins in front.
fn assertions_with(
    alloc: Global,
    keys: RandomState,
    database: &Database,
    stand_ins: &[StandIn],
) -> Result<Vec<Assertion>, AllocError>
    ensures { IfOk result (λ made. made.items ≡ (with_stand_ins database.now (seen_stand_ins stand_ins.now)).assertions) }
{
    let axioms = axioms_of(alloc, keys, stand_ins)?;
    let mut made = Vec::new(alloc);
    put_axioms(alloc, &mut made, database.assertions(), &axioms)?;
    put_theorems(alloc, &mut made, database, &axioms)?;
    Ok(made)
}

/// Copies of `$f`.
fn copied_floats(alloc: Global, floats: &[Float]) -> Result<Sequence<Float>, AllocError>
    ensures { IfOk result (λ copies. copies ≡ floats.now) }
{
    let mut copies = Vec::new(alloc);
    for float in floats {
        copies.push(float.copy(alloc)?)?;
    }
    Ok(Sequence::from_vec(copies))
}

/// A prelude with assertions of which nothing is known yet.
fn draft_of(
    alloc: Global,
    prelude: &Prelude,
    assertions: Vec<Assertion>,
) -> Result<Draft, AllocError>
    ensures { IfOk result (λ made. contents_of made ≡ record { prelude = prelude.now; assertions = assertions.items }) }
{
    Ok(Draft {
        constants: copied_labels(alloc, prelude.constants())?,
        variables: copied_labels(alloc, prelude.variables())?,
        floats: copied_floats(alloc, prelude.floats())?,
        assertions: Sequence::from_vec(assertions),
    })
}

/// The library of a draft.
fn declared(alloc: Global, keys: RandomState, draft: Draft) -> Result<Database, Unopened>
    ensures made { IfOk result (λ made. made ≡ contents_of draft) }
    ensures refused { (db : Contents) (ss : List SeenStandIn) → contents_of draft ≡ with_stand_ins db ss
        → IfErr result (IsUnopened db ss) }
{
    match declare(alloc, keys, draft) {
        Ok(library) => Ok(library),
        Err(Undeclared::NoMemory) => Err(Unopened::NoMemory),
        Err(_) => Err(Unopened::Unlawful),
    }
}

/// Why a library isn't opened that has such a proof.
fn unchecked(fault: ProofFault) -> Unopened
    ensures { fault.kind ≡ ProofFaultKind.NoMemory → result ≡ NoMemory }
{
    if fault.kind == ProofFaultKind::NoMemory {
        return Unopened::NoMemory;
    }
    Unopened::Unlawful
}

/// A library, where its proofs check.
fn checked(
    rt: &(impl Threads + Sync),
    alloc: Global,
    library: Database,
) -> Result<Database, Unopened>
    ensures made { IfOk result (λ made. made ≡ library) }
    ensures checks { IfOk result AllCheck }
    ensures refused { (db : Contents) (ss : List SeenStandIn) → library ≡ with_stand_ins db ss → IfErr result (IsUnopened db ss) }
{
    match check_all(rt, alloc, &library) {
        Ok(()) => Ok(library),
        Err((_, fault)) => Err(unchecked(fault)),
    }
}

/// A library with its stand-ins: its proofs are checked.
pub(crate) fn library_with(
    rt: &(impl Threads + Sync),
    alloc: Global,
    keys: RandomState,
    database: &Database,
    stand_ins: &[StandIn],
) -> Result<Database, Unopened>
    ensures made { IfOk result (λ made. made ≡ with_stand_ins database.now (seen_stand_ins stand_ins.now)) }
    ensures checks { IfOk result AllCheck }
    ensures refused { IfErr result (IsUnopened database.now (seen_stand_ins stand_ins.now)) }
{
    let assertions = assertions_with(alloc, keys, database, stand_ins)?;
    let draft = draft_of(alloc, database.prelude(), assertions)?;
    let library = declared(alloc, keys, draft)?;
    checked(rt, alloc, library)
}
