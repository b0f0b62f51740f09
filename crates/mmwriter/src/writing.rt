//! The canonical layout of a database, and of a single assertion.

ghost use Rattle.std.specs.Prelude.{ℕ, suc, ◌≡◌, ◌≢◌, ◌<◌, ◌++◌, ◌∷◌, [], length, All, OnOk, IfOk, map, codes};
ghost use Rattle.std.specs.List.{flat_map};
ghost use Rattle.std.specs.Fmt.{decimal};
ghost use Rattle.mmsyntax.specs.declared.statement.Symbol.TheVariants.{Var};
ghost use Rattle.mmsyntax.specs.Grammar.{asserted, proved, distinct, hypothesis, block, claim_spelling, piece_spelling, Spells, SpellsUnit};
ghost use Rattle.mmsyntax.specs.Assertions.{IsSymbolOf, IsExpression, IsPairOf, Fits};
ghost use Rattle.mmsyntax.specs.Layout.{symbol_word, step_word, hypothesis_label, spaced, line, indented, statement_text, float_statement};
ghost use Rattle.mmsyntax.specs.Layout.{distinct_pieces, hypothesis_pieces, claim_of, prelude_text, assertion_text, text_of};
ghost use Rattle.mmsyntax.specs.Layout.{HasUnitSpelling};
ghost use Rattle.mmsyntax.specs.Preludes.{IsFloatSound};
ghost use Rattle.mmsyntax.specs.ProofWords.{seen_step};

use itoa::Buffer;
use mmsyntax::{
    Assertion, Database, Expr, Float, Kind, Label, Prelude, Proof, StepRef, Symbol, SymbolWord,
};
use std::alloc::{AllocError, Global};

/// Puts a space and a word behind `out`.
///
/// After an error nothing is promised of the bytes in `out`.
pub fn put_word(out: &mut Vec<u8>, word: &[u8]) -> Result<(), AllocError>
    ensures { OnOk result (out.new.items ≡ out.old.items ++ 32 ∷ word.now) }
{
    out.push(b' ')?;
    out.extend_from_slice(word)
}

/// The end of a statement and of its line.
fn put_end(out: &mut Vec<u8>) -> Result<(), AllocError>
    ensures { OnOk result (out.new.items ≡ out.old.items ++ 32 ∷ 36 ∷ 46 ∷ 10 ∷ []) }
{
    out.extend_from_slice(b" $.\n")
}

fn put_words(out: &mut Vec<u8>, words: &[Label]) -> Result<(), AllocError>
    ensures { OnOk result (out.new.items ≡ out.old.items ++ spaced words.now) }
{
    for word in words {
        put_word(out, word.as_slice())?;
    }
    Ok(())
}

/// A line of names, if there are any.
fn put_names(out: &mut Vec<u8>, keyword: &[u8], names: &[Label]) -> Result<(), AllocError>
    requires { names.now ≢ [] }
    ensures { OnOk result (out.new.items ≡ out.old.items ++ line (keyword.now ∷ (names.now ++ codes "$." ∷ []))) }
{
    out.extend_from_slice(keyword)?;
    put_words(out, names)?;
    put_end(out)
}

/// The word of a symbol.
fn word_of(prelude: &Prelude, symbol: Symbol) -> &[u8]
    requires { IsSymbolOf prelude.now symbol }
    ensures { result.now ≡ symbol_word prelude.now symbol }
{
    match symbol {
        Symbol::Const(i) => prelude.constants()[i as usize].as_slice(),
        Symbol::Var(j) => {
            let variable = prelude.floats()[j as usize].variable;
            prelude.variables()[variable as usize].as_slice()
        }
    }
}

fn put_float(out: &mut Vec<u8>, prelude: &Prelude, float: &Float) -> Result<(), AllocError>
    requires { IsFloatSound prelude.now float.now }
    ensures { OnOk result (out.new.items ≡ out.old.items ++ statement_text (float_statement prelude.now float.now)) }
{
    out.extend_from_slice(float.label.as_slice())?;
    out.extend_from_slice(b" $f")?;
    put_word(
        out,
        prelude.constants()[float.type_code as usize].as_slice(),
    )?;
    put_word(out, prelude.variables()[float.variable as usize].as_slice())?;
    put_end(out)
}

fn put_symbols(
    out: &mut Vec<u8>,
    prelude: &Prelude,
    symbols: &[SymbolWord],
) -> Result<(), AllocError>
    requires { All (IsSymbolOf prelude.now) symbols.now }
    ensures { OnOk result (out.new.items ≡ out.old.items ++ spaced (map (symbol_word prelude.now) symbols.now)) }
{
    for symbol in symbols {
        put_word(out, word_of(prelude, symbol.symbol()))?;
    }
    Ok(())
}

/// The label of a hypothesis of the assertion with a label. Hypotheses count from 1.
fn put_hypothesis_label(out: &mut Vec<u8>, label: &[u8], number: u64) -> Result<(), AllocError>
    ensures { OnOk result (out.new.items ≡ out.old.items ++ hypothesis_label label.now number) }
{
    out.extend_from_slice(label)?;
    out.push(b'.')?;
    let mut buffer = Buffer::new();
    out.extend_from_slice(buffer.format(number).as_bytes())
}

/// The word of a step, with a space before it. A `$f` that is not of the prelude has no label.
fn put_step(
    out: &mut Vec<u8>,
    prelude: &Prelude,
    label: &[u8],
    step: StepRef<'_>,
) -> Result<(), AllocError>
    ensures { OnOk result (out.new.items ≡ out.old.items ++ 32 ∷ step_word prelude.now label.now (seen_step step.entry)) }
{
    out.push(b' ')?;
    match step {
        StepRef::Float(place) => match prelude.floats().get(place as usize) {
            Some(float) => out.extend_from_slice(float.label.as_slice()),
            None => Ok(()),
        },
        StepRef::Hyp(place) => put_hypothesis_label(out, label, place as u64 + 1),
        StepRef::Cite(cited) => out.extend_from_slice(cited),
    }
}

/// Puts the words of the steps of a proof behind `out`, with a space before each. `label` is that of the assertion that they prove.
///
/// A step that names a `$f` which the prelude does not have is written as an empty word. After an error nothing is promised of
/// the bytes in `out`.
pub fn put_steps(
    out: &mut Vec<u8>,
    prelude: &Prelude,
    label: &[u8],
    steps: &Proof,
) -> Result<(), AllocError>
    ensures { OnOk result (out.new.items ≡ out.old.items ++ spaced (map (step_word prelude.now label.now) steps.now)) }
{
    for i in 0..steps.len() {
        put_step(out, prelude, label, steps.step(i))?;
    }
    Ok(())
}

fn put_axiom(out: &mut Vec<u8>, prelude: &Prelude, assertion: &Assertion) -> Result<(), AllocError>
    requires { All (IsSymbolOf prelude.now) assertion.now.statement }
    ensures { OnOk result (out.new.items ≡ out.old.items
        ++ line (claim_spelling (asserted assertion.now.label (map (symbol_word prelude.now) assertion.now.statement)))) }
{
    out.extend_from_slice(assertion.label.as_slice())?;
    out.extend_from_slice(b" $a")?;
    put_symbols(out, prelude, assertion.statement.as_slice())?;
    put_end(out)
}

fn put_theorem(
    out: &mut Vec<u8>,
    prelude: &Prelude,
    assertion: &Assertion,
) -> Result<(), AllocError>
    requires { All (IsSymbolOf prelude.now) assertion.now.statement }
    ensures { OnOk result (out.new.items ≡ out.old.items
        ++ line (claim_spelling (proved assertion.now.label (map (symbol_word prelude.now) assertion.now.statement)
        (map (step_word prelude.now assertion.now.label) assertion.now.proof)))) }
{
    let label = assertion.label.as_slice();
    out.extend_from_slice(label)?;
    out.extend_from_slice(b" $p")?;
    put_symbols(out, prelude, assertion.statement.as_slice())?;
    out.extend_from_slice(b" $=")?;
    put_steps(out, prelude, label, &assertion.proof)?;
    put_end(out)
}

/// The line of an assertion without its block.
fn put_claim(out: &mut Vec<u8>, prelude: &Prelude, assertion: &Assertion) -> Result<(), AllocError>
    requires { All (IsSymbolOf prelude.now) assertion.now.statement }
    ensures { OnOk result (out.new.items ≡ out.old.items ++ line (claim_spelling (claim_of prelude.now assertion.now))) }
{
    match assertion.kind {
        Kind::Axiom => put_axiom(out, prelude, assertion),
        Kind::Theorem => put_theorem(out, prelude, assertion),
    }
}

/// The `$d` of a pair.
fn put_pair(out: &mut Vec<u8>, prelude: &Prelude, pair: (u32, u32)) -> Result<(), AllocError>
    requires { IsPairOf (length prelude.now.floats) pair }
    ensures { OnOk result (out.new.items ≡ out.old.items
        ++ indented (piece_spelling (distinct (symbol_word prelude.now (Var pair.0) ∷ symbol_word prelude.now (Var pair.1) ∷ [])))) }
{
    out.extend_from_slice(b"  $d")?;
    put_word(out, word_of(prelude, Symbol::Var(pair.0)))?;
    put_word(out, word_of(prelude, Symbol::Var(pair.1)))?;
    put_end(out)
}

fn put_pairs(out: &mut Vec<u8>, prelude: &Prelude, pairs: &[(u32, u32)]) -> Result<(), AllocError>
    requires { All (IsPairOf (length prelude.now.floats)) pairs.now }
    ensures { OnOk result (out.new.items ≡ out.old.items
        ++ flat_map (λ p. indented (piece_spelling p)) (distinct_pieces prelude.now pairs.now)) }
{
    for pair in pairs {
        put_pair(out, prelude, *pair)?;
    }
    Ok(())
}

/// The `$e` of a hypothesis of the assertion with a label.
fn put_hypothesis(
    out: &mut Vec<u8>,
    prelude: &Prelude,
    label: &[u8],
    number: u64,
    symbols: &[SymbolWord],
) -> Result<(), AllocError>
    requires { All (IsSymbolOf prelude.now) symbols.now }
    ensures { OnOk result (out.new.items ≡ out.old.items
        ++ indented (piece_spelling (hypothesis (hypothesis_label label.now number) (map (symbol_word prelude.now) symbols.now)))) }
{
    out.extend_from_slice(b"  ")?;
    put_hypothesis_label(out, label, number)?;
    out.extend_from_slice(b" $e")?;
    put_symbols(out, prelude, symbols)?;
    put_end(out)
}

fn put_hypotheses(
    out: &mut Vec<u8>,
    prelude: &Prelude,
    label: &[u8],
    hyps: &[Expr],
) -> Result<(), AllocError>
    requires { All (IsExpression prelude.now) hyps.now }
    ensures { OnOk result (out.new.items ≡ out.old.items
        ++ flat_map (λ p. indented (piece_spelling p)) (hypothesis_pieces prelude.now label.now 0 hyps.now)) }
{
    for (place, symbols) in hyps.iter().enumerate() {
        put_hypothesis(out, prelude, label, place as u64 + 1, symbols.as_slice())?;
    }
    Ok(())
}

/// The lines of an assertion in its block.
fn put_block(out: &mut Vec<u8>, prelude: &Prelude, assertion: &Assertion) -> Result<(), AllocError>
    requires { Fits prelude.now assertion.now }
    ensures { OnOk result (out.new.items ≡ out.old.items ++ statement_text (block
        (distinct_pieces prelude.now assertion.now.pairs ++ hypothesis_pieces prelude.now assertion.now.label 0 assertion.now.hyps)
        (claim_of prelude.now assertion.now))) }
{
    let label = assertion.label.as_slice();
    out.extend_from_slice(b"${\n")?;
    put_pairs(out, prelude, assertion.pairs.as_slice())?;
    put_hypotheses(out, prelude, label, assertion.hyps.as_slice())?;
    out.extend_from_slice(b"  ")?;
    put_claim(out, prelude, assertion)?;
    out.extend_from_slice(b"$}\n")
}

/// Puts the canonical lines of an assertion behind `out`: one line, or a block where it has pairs or hypotheses.
///
/// A step that names a `$f` which the prelude does not have is written as an empty word. After an error nothing is promised of
/// the bytes in `out`.
pub fn put_assertion(
    out: &mut Vec<u8>,
    prelude: &Prelude,
    assertion: &Assertion,
) -> Result<(), AllocError>
    requires { Fits prelude.now assertion.now }
    ensures { OnOk result (out.new.items ≡ out.old.items ++ assertion_text prelude.now assertion.now) }
{
    if assertion.pairs.as_slice().is_empty() && assertion.hyps.as_slice().is_empty() {
        return put_claim(out, prelude, assertion);
    }
    put_block(out, prelude, assertion)
}

fn put_floats(out: &mut Vec<u8>, prelude: &Prelude, floats: &[Float]) -> Result<(), AllocError>
    requires { All (IsFloatSound prelude.now) floats.now }
    ensures { OnOk result (out.new.items ≡ out.old.items ++ flat_map statement_text (map (float_statement prelude.now) floats.now)) }
{
    for float in floats {
        put_float(out, prelude, float)?;
    }
    Ok(())
}

fn put_units(
    out: &mut Vec<u8>,
    prelude: &Prelude,
    assertions: &[Assertion],
) -> Result<(), AllocError>
    requires { All (Fits prelude.now) assertions.now }
    ensures { OnOk result (out.new.items ≡ out.old.items ++ flat_map (assertion_text prelude.now) assertions.now) }
{
    for assertion in assertions {
        put_assertion(out, prelude, assertion)?;
    }
    Ok(())
}

/// Puts the canonical lines of a prelude behind `out`.
///
/// After an error nothing is promised of the bytes in `out`.
pub fn put_prelude(out: &mut Vec<u8>, prelude: &Prelude) -> Result<(), AllocError>
    ensures { OnOk result (out.new.items ≡ out.old.items ++ prelude_text prelude.now) }
{
    let constants = prelude.constants();
    if !constants.is_empty() {
        put_names(out, b"$c", constants)?;
    }
    let variables = prelude.variables();
    if !variables.is_empty() {
        put_names(out, b"$v", variables)?;
    }
    put_floats(out, prelude, prelude.floats())
}

/// The canonical text of a database.
pub fn write_database(alloc: Global, db: &Database) -> Result<Vec<u8>, AllocError>
    ensures text { IfOk result (λ v. v.items ≡ text_of db.now) }
    ensures spelled { IfOk result (λ v. Spells v.items db.now) }
{
    let mut out = Vec::new(alloc);
    put_prelude(&mut out, db.prelude())?;
    put_units(&mut out, db.prelude(), db.assertions())?;
    Ok(out)
}

/// The canonical text of one assertion over a prelude.
///
/// It spells the assertion wherever some text does: where a step names each `$f` and each hypothesis that there is, and the label
/// is lawful.
pub fn write_assertion(
    alloc: Global,
    prelude: &Prelude,
    assertion: &Assertion,
) -> Result<Vec<u8>, AllocError>
    requires { Fits prelude.now assertion.now }
    ensures text { IfOk result (λ v. v.items ≡ assertion_text prelude.now assertion.now) }
    ensures spelled { IfOk result (λ v. HasUnitSpelling prelude.now assertion.now → SpellsUnit prelude.now v.items assertion.now) }
{
    // For the proof: some text declares the prelude.
    let _floats = prelude.floats();
    let mut out = Vec::new(alloc);
    put_assertion(&mut out, prelude, assertion)?;
    Ok(out)
}
