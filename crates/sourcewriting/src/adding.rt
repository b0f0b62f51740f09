//! The text of an assertion that is put into a source: a block of its own where it has pairs or `$e`.

ghost use Rattle.std.specs.Prelude.{◌≡◌, ◌≤◌, ◌+◌, ◌++◌, ◌∷◌, [], if◌then◌else◌, All, IfOk, IfSome, OnOk, IsTrue, is_some, length, map, slice_index_or, codes};
ghost use mathlib.Core.Bool.{not};
ghost use Rattle.mmsyntax.specs.Dotted.{hypothesis_label};
ghost use Rattle.mmsyntax.specs.declared.statement.Symbol.{Symbol as SymbolOf};
ghost use Rattle.mmframes.specs.Frames.{frame};
ghost use Rattle.source.specs.Views.{seen_words};
ghost use Rattle.giving.specs.Staying.{changed};
ghost use Rattle.items.specs.Layout.{is_word};
ghost use Rattle.sourcewriting.specs.Added.{HasSymbols, IsSpelled, IsSpelledThen, variable_word, first_free, is_name, mandatory_labels};
ghost use Rattle.sourcewriting.specs.Added.{hypotheses_with, CanBeProved, CanBeWritten};
ghost use Rattle.sourcewriting.specs.Indentations.{IsIndentation};
ghost use Rattle.sourcewriting.specs.Taking.{AreHypotheses};

use crate::grouping::grouped;
use crate::layout::{Layout, proof_indentation};
use crate::listing::Names;
use crate::proving::{Hypotheses, text_of};
use giving::LabelMap;
use mmframes::frame_of;
use mmsyntax::{Assertion, Expr, Float, Kind, Label, Prelude, Symbol, SymbolWord};
use source::Declared;
use std::alloc::{AllocError, Global};
use std::collections::HashMap;
use std::hash::RandomState;

/// What the first line of a statement begins with that stands in a block.
const IN_BLOCK: &[u8] = b"    ";

/// What it begins with otherwise.
const OUTSIDE: &[u8] = b"  ";

/// The white space that the first line of a statement begins with. Its other lines stand as those of a proof: two columns deeper.
fn statement_indentation(in_block: bool) -> &'static [u8]
    ensures { IsIndentation result.now }
{
    if in_block { IN_BLOCK } else { OUTSIDE }
}

/// Assertions of a library, by their labels.
pub type ByLabel<'x> = HashMap<&'x [u8], &'x Assertion, RandomState>;

/// An assertion of a library, and how it is to stand in the source.
#[derive(Clone, Copy)]
pub struct Statement<'t> {
    /// What it is in the library.
    pub assertion: &'t Assertion,
    /// Its label in the source.
    pub label: &'t [u8],
    /// Whether its proof is compressed.
    pub is_compressed: bool,
}

impl Statement<'_> {
    /// Whether it stands in a block of its own.
    fn is_block(&self) -> bool {
        !(self.assertion.hyps.as_slice().is_empty() && self.assertion.pairs.as_slice().is_empty())
    }

    /// What stands in front of it: an empty line, and the keyword of its block.
    fn beginning(&self) -> &'static [u8] {
        if self.is_block() { b"\n\n  ${" } else { b"\n" }
    }

    /// The keyword of its statement, and what ends its symbols.
    fn keywords(&self) -> (&'static [u8], &'static [u8])
        ensures { IsTrue (is_word result.0.now) × IsTrue (is_word result.1.now) }
    {
        match self.assertion.kind {
            Kind::Axiom => (b"$a", b"$."),
            Kind::Theorem => (b"$p", b"$="),
        }
    }
}

/// The words of a library's symbols in the source.
#[derive(Drop)]
pub struct SymbolWords<'x> {
    /// Those of the constants, by their places.
    constants: Vec<&'x [u8]>,
    /// Those of the variables of `$f`, by the places of these.
    variables: Vec<&'x [u8]>,
}

/// What an assertion of the edited library is written with.
#[derive(Clone, Copy)]
pub struct Vocabulary<'s, 'x> {
    /// The prelude of that library.
    pub prelude: &'s Prelude,
    /// Its assertions, by their labels.
    pub edited: &'s ByLabel<'x>,
    /// What the steps of proofs name.
    pub names: &'s Names<'x>,
    /// The words of symbols.
    pub words: &'s SymbolWords<'x>,
}

/// What a name of the library is in the source.
fn in_source<'x>(changes: &LabelMap<'x>, name: &'x Label) -> &'x [u8]
    ensures { result.now ≡ changed changes.now name.now }
{
    let name = name.as_slice();
    match changes.text_for(name) {
        Some(word) => word,
        None => name,
    }
}

/// The words of constants in the source.
fn constant_words<'x>(
    alloc: Global,
    changes: &LabelMap<'x>,
    constants: &'x [Label],
) -> Result<Vec<&'x [u8]>, AllocError>
    ensures { IfOk result (λ made. seen_words made.items ≡ map (changed changes.now) constants.now) }
{
    let mut words = Vec::new(alloc);
    for name in constants {
        words.push(in_source(changes, name))?;
    }
    Ok(words)
}

/// The word of the variable at a place: `?` where there is none.
fn variable_word<'x>(changes: &LabelMap<'x>, variables: &'x [Label], place: usize) -> &'x [u8]
    ensures { result.now ≡ variable_word (changed changes.now) variables.now place }
{
    match variables.get(place) {
        Some(name) => in_source(changes, name),
        None => b"?",
    }
}

/// The words of the variables of `$f` in the source.
fn variable_words<'x>(
    alloc: Global,
    changes: &LabelMap<'x>,
    variables: &'x [Label],
    floats: &'x [Float],
) -> Result<Vec<&'x [u8]>, AllocError>
    ensures { IfOk result (λ made. seen_words made.items
        ≡ map (λ f. variable_word (changed changes.now) variables.now f.variable) floats.now) }
{
    let mut words = Vec::new(alloc);
    for float in floats {
        words.push(variable_word(changes, variables, float.variable as usize))?;
    }
    Ok(words)
}

/// The names of a library that were changed, with those in the source.
pub fn names_in_source<'x>(
    alloc: Global,
    keys: RandomState,
    names: &'x [(&'x [u8], Label)],
) -> Result<LabelMap<'x>, AllocError>
    ensures { IfOk result (λ made. made ≡ map (λ p. (p.1, p.0.now)) names.now) }
{
    let mut pairs = Vec::new(alloc);
    for (source, library) in names {
        pairs.push((library.as_slice(), *source))?;
    }
    LabelMap::new(alloc, keys, pairs)
}

/// The words of a library's symbols in the source, over its prelude, where these names were changed.
pub fn symbol_words<'x>(
    alloc: Global,
    keys: RandomState,
    prelude: &'x Prelude,
    names: &'x [(&'x [u8], Label)],
) -> Result<SymbolWords<'x>, AllocError>
    ensures { IfOk result (λ made. (x : SymbolOf)
        → IsSpelledThen (changed (map (λ p. (p.1, p.0.now)) names.now)) prelude.now x → IsSpelled made x) }
{
    let changes = names_in_source(alloc, keys, names)?;
    let (variables, floats) = (prelude.variables(), prelude.floats());
    Ok(SymbolWords {
        constants: constant_words(alloc, &changes, prelude.constants())?,
        variables: variable_words(alloc, &changes, variables, floats)?,
    })
}

/// The word at a place: `?` where there is none.
fn word_at<'x>(words: &[&'x [u8]], place: usize) -> &'x [u8]
    ensures { result.now ≡ slice_index_or (seen_words words.now) place (codes "?") }
{
    match words.get(place) {
        Some(word) => word,
        None => b"?",
    }
}

impl<'x> SymbolWords<'x> {
    /// The word of a symbol: `?` where there is no such symbol.
    fn word(&self, symbol: Symbol) -> &'x [u8]
        ensures { IsSpelled self.now symbol → IsTrue (is_word result.now) }
    {
        match symbol {
            Symbol::Const(place) => word_at(self.constants.as_slice(), place as usize),
            Symbol::Var(place) => word_at(self.variables.as_slice(), place as usize),
        }
    }
}

/// The words of a statement.
#[derive(Clone, Copy)]
struct Said<'s> {
    /// Its label, if it has one.
    label: Option<&'s [u8]>,
    keyword: &'s [u8],
    symbols: &'s [&'s [u8]],
    /// What ends its symbols.
    end: &'s [u8],
}

/// Puts the label of a statement, if it has one. What follows on other lines stands deeper.
fn lay_label(layout: &mut Layout<'_>, in_block: bool, label: Option<&[u8]>)
    ensures { IfSome label.entry (λ w. IsTrue (is_word w.now)) → layout.new.is_refused ≡ layout.old.is_refused }
{
    if let Some(label) = label {
        layout.put_word(label);
        layout.indent(proof_indentation(in_block));
    }
}

/// Lays out a statement: its first line stands as the block does, and others deeper.
fn lay_statement(layout: &mut Layout<'_>, in_block: bool, said: &Said<'_>)
    ensures { IfSome said.now.label (λ w. IsTrue (is_word w.now)) → IsTrue (is_word said.now.keyword.now)
        → IsTrue (is_word said.now.end.now) → All (λ w. IsTrue (is_word w)) (seen_words said.now.symbols.now)
        → layout.new.is_refused ≡ layout.old.is_refused }
{
    lay_label(layout, in_block, said.label);
    layout.put_word(said.keyword);
    layout.indent(proof_indentation(in_block));
    layout.put_words(said.symbols);
    layout.put_word(said.end);
}

/// Puts a statement in lines of its own. Whether it could be written.
fn put_statement(
    alloc: Global,
    out: &mut Vec<u8>,
    in_block: bool,
    said: &Said<'_>,
) -> Result<bool, AllocError>
    ensures { IfSome said.now.label (λ w. IsTrue (is_word w.now)) → IsTrue (is_word said.now.keyword.now)
        → IsTrue (is_word said.now.end.now) → All (λ w. IsTrue (is_word w)) (seen_words said.now.symbols.now)
        → IfOk result (λ whole. IsTrue whole) }
{
    let mut layout = Layout::new(alloc, statement_indentation(in_block));
    lay_statement(&mut layout, in_block, said);
    let Some(text) = layout.into_text()? else {
        return Ok(false);
    };
    out.extend_from_slice(text.as_slice())?;
    Ok(true)
}

/// The words of symbols.
fn words_of<'x>(
    alloc: Global,
    words: &SymbolWords<'x>,
    symbols: &[SymbolWord],
) -> Result<Vec<&'x [u8]>, AllocError>
    ensures { All (IsSpelled words.now) symbols.now
        → IfOk result (λ made. All (λ w. IsTrue (is_word w)) (seen_words made.items)) }
{
    let mut made = Vec::new(alloc);
    for symbol in symbols {
        made.push(words.word(symbol.symbol()))?;
    }
    Ok(made)
}

/// The words of variables.
fn words_of_variables<'x>(
    alloc: Global,
    words: &SymbolWords<'x>,
    variables: &[u32],
) -> Result<Vec<&'x [u8]>, AllocError>
    ensures { All (λ v. IsSpelled words.now (Symbol.Var v)) variables.now
        → IfOk result (λ made. All (λ w. IsTrue (is_word w)) (seen_words made.items)) }
{
    let mut made = Vec::new(alloc);
    for variable in variables {
        made.push(words.word(Symbol::Var(*variable)))?;
    }
    Ok(made)
}

/// Puts the `$d` of variables. Whether it could be written.
fn put_variables(
    alloc: Global,
    out: &mut Vec<u8>,
    words: &SymbolWords<'_>,
    variables: &[u32],
) -> Result<bool, AllocError>
    ensures { All (λ v. IsSpelled words.now (Symbol.Var v)) variables.now → IfOk result (λ whole. IsTrue whole) }
{
    let symbols = words_of_variables(alloc, words, variables)?;
    let said = Said {
        label: None,
        keyword: b"$d",
        symbols: symbols.as_slice(),
        end: b"$.",
    };
    put_statement(alloc, out, true, &said)
}

/// Puts the `$d` of pairs, one for each list of variables of which each two make a pair. Whether they could be written.
fn put_pairs(
    alloc: Global,
    out: &mut Vec<u8>,
    words: &SymbolWords<'_>,
    pairs: &[(u32, u32)],
) -> Result<bool, AllocError>
    ensures { All (λ p. IsSpelled words.now (Symbol.Var p.0) × IsSpelled words.now (Symbol.Var p.1)) pairs.now
        → IfOk result (λ whole. IsTrue whole) }
{
    let groups = grouped(alloc, pairs)?;
    for group in groups.as_slice() {
        if !put_variables(alloc, out, words, group.as_slice())? {
            return Ok(false);
        }
    }
    Ok(true)
}

/// The label L.k.
fn numbered(alloc: Global, label: &[u8], number: u32) -> Result<Vec<u8>, AllocError>
    ensures { IfOk result (λ made. made.items ≡ hypothesis_label label.now number) }
{
    let number = format!(in alloc; ".{number}")?;
    let mut name = Vec::from_slice(alloc, label)?;
    name.extend_from_slice(number.as_bytes())?;
    Ok(name)
}

/// Whether the source or the edited library has a name.
fn has_name<'a, D: Declared<'a>>(declared: &D, edited: &ByLabel<'_>, name: &[u8]) -> bool
    ensures { result ≡ is_name (D.scope declared.now) edited.now name.now }
{
    declared.has_name(name) || edited.contains_key(&name)
}

/// One more label goes behind others, if neither the source nor the edited library has it as a name.
fn push_free<'a, D: Declared<'a>>(
    declared: &D,
    edited: &ByLabel<'_>,
    labels: &mut Vec<Vec<u8>>,
    name: Vec<u8>,
) -> Result<(), AllocError>
    ensures more { OnOk result (map (λ w. w.items) labels.new.items ≡ map (λ w. w.items) labels.old.items
        ++ (if not (is_name (D.scope declared.now) edited.now name.items) then name.items ∷ [] else [])) }
    ensures few { OnOk result (length labels.new.items ≤ length labels.old.items + 1) }
{
    if has_name(declared, edited, name.as_slice()) {
        return Ok(());
    }
    labels.push(name)?;
    Ok(())
}

/// The labels of the `$e`: the first of L.1, L.2, .. that neither the source nor the edited library has as a name.
fn labels_of_premises<'a, D: Declared<'a>>(
    alloc: Global,
    declared: &D,
    edited: &ByLabel<'_>,
    label: &[u8],
    count: usize,
) -> Result<Vec<Vec<u8>>, AllocError>
    ensures { IfOk result (λ made. map (λ w. w.items) made.items
        ≡ first_free (is_name (D.scope declared.now) edited.now) label.now 4294967294 count) }
{
    let mut labels = Vec::new(alloc);
    for number in 1..u32::MAX {
        if labels.len() == count {
            return Ok(labels);
        }
        let name = numbered(alloc, label, number)?;
        push_free(declared, edited, &mut labels, name)?;
    }
    Ok(labels)
}

/// Puts a `$e`. Whether it could be written.
fn put_premise(
    alloc: Global,
    out: &mut Vec<u8>,
    words: &SymbolWords<'_>,
    expression: &Expr,
    label: &[u8],
) -> Result<bool, AllocError>
    ensures { All (IsSpelled words.now) expression.now → IsTrue (is_word label.now) → IfOk result (λ whole. IsTrue whole) }
{
    let symbols = words_of(alloc, words, expression.as_slice())?;
    let said = Said {
        label: Some(label),
        keyword: b"$e",
        symbols: symbols.as_slice(),
        end: b"$.",
    };
    put_statement(alloc, out, true, &said)
}

/// Puts the `$e`, of which these are the labels. Whether they could be written.
fn put_premises(
    alloc: Global,
    out: &mut Vec<u8>,
    words: &SymbolWords<'_>,
    premises: &[Expr],
    labels: &[Vec<u8>],
) -> Result<bool, AllocError>
    ensures { All (λ e. All (IsSpelled words.now) e) premises.now → All (λ w. IsTrue (is_word w.items)) labels.now
        → IfOk result (λ whole. IsTrue whole) }
{
    for place in 0..premises.len().min(labels.len()) {
        if !put_premise(
            alloc,
            out,
            words,
            &premises[place],
            labels[place].as_slice(),
        )? {
            return Ok(false);
        }
    }
    Ok(true)
}

/// Puts the statement of an assertion, up to its proof. Whether it could be written.
fn put_said(
    alloc: Global,
    out: &mut Vec<u8>,
    words: &SymbolWords<'_>,
    statement: &Statement<'_>,
) -> Result<bool, AllocError>
    ensures { IsTrue (is_word statement.now.label.now) → All (IsSpelled words.now) statement.now.assertion.now.statement
        → IfOk result (λ whole. IsTrue whole) }
{
    let symbols = words_of(alloc, words, statement.assertion.statement.as_slice())?;
    let (keyword, end) = statement.keywords();
    let said = Said {
        label: Some(statement.label),
        keyword,
        symbols: symbols.as_slice(),
        end,
    };
    put_statement(alloc, out, statement.is_block(), &said)
}

/// The text in front of an assertion, behind an empty line: the beginning of its block, the pairs, and the `$e`, of which these are the
/// labels. None where it can't be written.
fn front_of(
    alloc: Global,
    words: &SymbolWords<'_>,
    statement: &Statement<'_>,
    labels: &[Vec<u8>],
) -> Result<Option<Vec<u8>>, AllocError>
    ensures { HasSymbols (IsSpelled words.now) statement.now.assertion.now → All (λ w. IsTrue (is_word w.items)) labels.now
        → IfOk result (λ made. IsTrue (is_some made)) }
{
    let assertion = statement.assertion;
    let mut out = Vec::from_slice(alloc, statement.beginning())?;
    if !put_pairs(alloc, &mut out, words, assertion.pairs.as_slice())? {
        return Ok(None);
    }
    if !put_premises(alloc, &mut out, words, assertion.hyps.as_slice(), labels)? {
        return Ok(None);
    }
    Ok(Some(out))
}

/// The slices of texts.
fn slices_of<'p>(alloc: Global, texts: &'p [Vec<u8>]) -> Result<Vec<&'p [u8]>, AllocError>
    ensures { IfOk result (λ made. seen_words made.items ≡ map (λ t. t.items) texts.now) }
{
    let mut slices = Vec::new(alloc);
    for text in texts {
        slices.push(text.as_slice())?;
    }
    Ok(slices)
}

/// The labels of `$f`, by their places.
fn float_labels<'p>(
    alloc: Global,
    names: &Names<'p>,
    floats: &[u32],
) -> Result<Vec<&'p [u8]>, AllocError>
    ensures { IfOk result (λ made. seen_words made.items
        ≡ map (λ i. slice_index_or (seen_words names.now.floats.items) i (codes "?")) floats.now) }
{
    let mut labels = Vec::new(alloc);
    for place in floats {
        labels.push(word_at(names.floats.as_slice(), *place as usize))?;
    }
    Ok(labels)
}

/// The labels of the mandatory hypotheses of an assertion that is put in: those of `$f`, and then those of its `$e`, which are these.
fn labels_of_mandatory<'p>(
    alloc: Global,
    vocabulary: &Vocabulary<'_, 'p>,
    assertion: &Assertion,
    premises: &[&'p [u8]],
) -> Result<Vec<&'p [u8]>, AllocError>
    ensures { IfOk result (λ made. seen_words made.items ≡ mandatory_labels (seen_words vocabulary.now.names.now.floats.items)
        (frame vocabulary.now.prelude.now assertion.now).floats (seen_words premises.now)) }
{
    let frame = frame_of(alloc, vocabulary.prelude, assertion)?;
    let mut labels = float_labels(alloc, vocabulary.names, frame.floats.as_slice())?;
    drop(frame);
    labels.extend_from_slice(premises)?;
    Ok(labels)
}

/// The labels of the hypotheses of an assertion that is put in, whose `$e` have these.
fn hypotheses_of<'p>(
    alloc: Global,
    vocabulary: &Vocabulary<'_, 'p>,
    assertion: &Assertion,
    labels: &'p [Vec<u8>],
) -> Result<Hypotheses<'p>, AllocError>
    ensures { IfOk result (AreHypotheses (hypotheses_with vocabulary.now assertion.now (map (λ w. w.items) labels.now))) }
{
    let premises = slices_of(alloc, labels)?;
    let mandatory = labels_of_mandatory(alloc, vocabulary, assertion, premises.as_slice())?;
    Ok(Hypotheses {
        mandatory,
        premises,
    })
}

/// A proof, and what ends its statement. None where there is no proof.
fn ended(proof: Option<Vec<u8>>) -> Result<Option<Vec<u8>>, AllocError>
    ensures { IsTrue (is_some proof) → IfOk result (λ made. IsTrue (is_some made)) }
{
    let Some(mut text) = proof else {
        return Ok(None);
    };
    text.extend_from_slice(b"$.")?;
    Ok(Some(text))
}

/// What stands behind the statement of an assertion whose `$e` have these labels: the proof of a theorem. None where it can't be written.
fn rest_of<'p, 'a, D: Declared<'a>>(
    alloc: Global,
    keys: RandomState,
    declared: &D,
    vocabulary: &Vocabulary<'_, 'p>,
    statement: &Statement<'_>,
    labels: &'p [Vec<u8>],
) -> Result<Option<Vec<u8>>, AllocError>
    ensures { CanBeProved (D.scope declared.now) vocabulary.now statement.now (map (λ w. w.items) labels.now)
        → IfOk result (λ made. IsTrue (is_some made)) }
{
    let assertion = statement.assertion;
    if let Kind::Axiom = assertion.kind {
        return Ok(Some(Vec::new(alloc)));
    }
    let hypotheses = hypotheses_of(alloc, vocabulary, assertion, labels)?;
    let proof = text_of(
        alloc,
        keys,
        declared,
        vocabulary.names,
        statement.is_compressed,
        &hypotheses,
        proof_indentation(statement.is_block()),
        &assertion.proof,
    )?;
    ended(proof)
}

/// The text of an assertion whose `$e` have these labels, from its label up to the end of its block. None where it can't be written.
fn back_of<'a, D: Declared<'a>>(
    alloc: Global,
    keys: RandomState,
    declared: &D,
    vocabulary: &Vocabulary<'_, '_>,
    statement: &Statement<'_>,
    labels: &[Vec<u8>],
) -> Result<Option<Vec<u8>>, AllocError>
    ensures { IsTrue (is_word statement.now.label.now)
        → All (IsSpelled vocabulary.now.words.now) statement.now.assertion.now.statement
        → CanBeProved (D.scope declared.now) vocabulary.now statement.now (map (λ w. w.items) labels.now)
        → IfOk result (λ made. IsTrue (is_some made)) }
{
    let mut out = Vec::new(alloc);
    if !put_said(alloc, &mut out, vocabulary.words, statement)? {
        return Ok(None);
    }
    let Some(rest) = rest_of(alloc, keys, declared, vocabulary, statement, labels)? else {
        return Ok(None);
    };
    out.extend_from_slice(rest.as_slice())?;
    if statement.is_block() {
        out.extend_from_slice(b"\n  $}")?;
    }
    Ok(Some(out))
}

/// The text of an assertion, in two parts: between them stands what describes it.
#[derive(Drop)]
pub struct Written {
    /// An empty line, and the beginning of its block, where it has one: the pairs and the `$e`.
    pub front: Vec<u8>,
    /// The assertion, and the end of its block.
    pub back: Vec<u8>,
}

/// The text of an assertion behind an empty line, in a block of its own where it has pairs or `$e`, whose labels are the first of L.1, L.2,
/// .. that neither the source nor the edited library has as a name. None where it can't be written: its label is no name, a word of its
/// symbols isn't printable, or its proof can't be put (`proof_text`).
///
/// # Errors
///
/// Want of memory.
pub fn assertion_text<'a, D: Declared<'a>>(
    alloc: Global,
    keys: RandomState,
    declared: &D,
    vocabulary: &Vocabulary<'_, '_>,
    statement: &Statement<'_>,
) -> Result<Option<Written>, AllocError>
    ensures { CanBeWritten (D.scope declared.now) vocabulary.now statement.now → IfOk result (λ made. IsTrue (is_some made)) }
{
    let premises = statement.assertion.hyps.as_slice().len();
    let labels = labels_of_premises(
        alloc,
        declared,
        vocabulary.edited,
        statement.label,
        premises,
    )?;
    let labels = labels.as_slice();
    let Some(front) = front_of(alloc, vocabulary.words, statement, labels)? else {
        return Ok(None);
    };
    let back = back_of(alloc, keys, declared, vocabulary, statement, labels)?;
    Ok(back.map(|back| Written { front, back }))
}
