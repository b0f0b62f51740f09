//! Databases that calls begin with, by their texts.

ghost use Rattle.std.specs.Prelude.{IfOk};
ghost use Rattle.derivation.specs.Databases.{AllCheck};

use derivation::ProofFaultKind;
use mmstatement::{Database, read_database};
use proofcheck::check_all;
use std::alloc::{AllocError, AllocGlobal};
use std::hash::RandomState;
use std::random::RandomSource;
use std::test::Fail;
use std::thread::Threads;

/// 23 bytes: one constant, and an axiom.
pub(crate) fn mini() -> &'static [u8] {
    b"$c wff $.\nwe $a wff $.\n"
}

/// The database of a text.
pub(crate) fn database(
    rt: &(impl AllocGlobal + RandomSource),
    text: &[u8],
) -> Result<Database, Fail> {
    let keys = RandomState::new(rt)?;
    Ok(read_database(rt.alloc(), keys, text)?)
}

/// The same, where its proofs check.
pub(crate) fn checked(
    rt: &(impl AllocGlobal + RandomSource + Threads + Sync),
    text: &[u8],
) -> Result<Database, Fail>
    ensures { IfOk result AllCheck }
{
    let db = database(rt, text)?;
    match check_all(rt, rt.alloc(), &db) {
        Ok(()) => Ok(db),
        Err((_, fault)) if fault.kind == ProofFaultKind::NoMemory => Err(Fail::from(AllocError)),
        Err(_) => Err(Fail::from("the proofs of the database check")),
    }
}

/// Two axioms and a theorem that cites the first of them, in the canonical layout.
pub(crate) fn three() -> &'static [u8] {
    b"$c wff |- $.
$v x y $.
wx $f wff x $.
wy $f wff y $.
id $a |- x y x $.
wc $a wff $.
${
  $d x y $.
  th.1 $e |- x y $.
  th $p |- x y x $= wx wy id $.
$}
"
}

/// The text of `examples/demo.mm`, in the canonical layout.
pub(crate) const DEMO: &str = "$c 0 + = -> ( ) term wff |- $.
$v t r s P Q $.
tt $f term t $.
tr $f term r $.
ts $f term s $.
wp $f wff P $.
wq $f wff Q $.
tze $a term 0 $.
tpl $a term ( t + r ) $.
weq $a wff t = r $.
wim $a wff ( P -> Q ) $.
a1 $a |- ( t = r -> ( t = s -> r = s ) ) $.
a2 $a |- ( t + 0 ) = t $.
${
  mp.1 $e |- P $.
  mp.2 $e |- ( P -> Q ) $.
  mp $a |- Q $.
$}
th1 $p |- t = t $= tt tze tpl tt weq tt tt weq tt a2 tt tze tpl tt weq tt tze tpl tt weq tt tt weq wim tt a2 tt tze tpl tt tt a1 mp mp $.
";

/// The last line of `DEMO`, which has its theorem.
pub(crate) fn theorem_line() -> &'static [u8] {
    match DEMO.find("th1 ") {
        Some(at) => DEMO.as_bytes().get(at..).unwrap_or_default(),
        None => b"",
    }
}

/// Whether a text is that of `DEMO` with the theorem called `refl`.
pub(crate) fn is_demo_renamed(text: &[u8]) -> bool {
    let front = DEMO.len().saturating_sub(theorem_line().len());
    let behind = front.saturating_add(4);
    text.get(..front) == DEMO.as_bytes().get(..front)
        && text.get(front..behind) == Some(b"refl".as_slice())
        && text.get(behind..) == theorem_line().get(3..)
}
