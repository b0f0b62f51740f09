//! Reading a source, token by token.

ghost use Rattle.std.specs.Prelude.{◌≡◌, IfOk};
ghost use Rattle.mmtext.specs.Text.{mark_of};
ghost use Rattle.mmtext.specs.Views.{seen, seen_by, IsReadAs};
ghost use Rattle.mmtext.specs.Laws.{IsRead};
ghost use Rattle.source.specs.Sources.{DeclaresText};
ghost use Rattle.source.specs.Scopes.{outset};
ghost use Rattle.source.specs.Faults.{in_place, row, source_language};
ghost use Rattle.sourcereader.specs.Standing.{HasPassed, IsCounted, IsReadySource};
ghost use Rattle.sourcereader.specs.Views.{seen_place, seen_proof_place, seen_at, Leads};
ghost use Rattle.sourcereader.specs.declared.place.Place.TheVariants.{AtStart, InProof};

use crate::keeping::{KeepsPlace, SourceReader};
use crate::place::{OpenProof, Place, ProofPlace};
use crate::proof_rows::{labels, letters, steps};
use crate::rows::{
    axiom, constant, distinct, float_end, hypothesis, keyword, start, theorem, type_code,
    typed_variable, variable,
};
use mmtext::{Mark, Reader, Stop, TextFault, Token, read};
use source::Standing;
use std::alloc::Global;

/// The most bytes that a source may have.
pub const MOST_BYTES: usize = 268_435_456;

/// Where a token with a mark leads that stands in a proof.
fn proof_place_by_mark<'a, S: Standing<'a>>(
    alloc: Global,
    standing: &mut S,
    begun: OpenProof<'a>,
    token: Token<'a>,
    mark: Mark,
) -> Result<Place<'a>, Stop>
    requires stands { HasPassed (S.stand standing.old).scope (seen_place (InProof begun)) }
    requires counted { IsCounted (S.stand standing.old).scope (S.marks standing.old) (InProof begun) }
    ensures leads { let here = seen_at (S.stand standing.old) (InProof begun.entry) in
        Leads (S.stand standing.new) result (in_place here here.place (seen token.entry) mark) }
    ensures counted { IfOk result (λ p. IsCounted (S.stand standing.new).scope (S.marks standing.new) p) }
{
    let OpenProof { theorem, place } = begun;
    match place {
        ProofPlace::InSteps(normal) => steps(alloc, standing, theorem, normal, token, mark),
        ProofPlace::InLabels(numbered) => labels(alloc, standing, theorem, numbered, token),
        ProofPlace::InLetters(compressed) => {
            letters(alloc, standing, theorem, compressed, token, mark)
        }
    }
}

/// Where a token with a mark leads that stands outside of comments.
fn place_by_mark<'a, S: Standing<'a>>(
    alloc: Global,
    standing: &mut S,
    place: Place<'a>,
    token: Token<'a>,
    mark: Mark,
) -> Result<Place<'a>, Stop>
    requires { IsReadySource (S.stand standing.old) (S.marks standing.old) place }
    ensures leads { let here = seen_at (S.stand standing.old) place.entry in
        Leads (S.stand standing.new) result (in_place here here.place (seen token.entry) mark) }
    ensures counted { IfOk result (λ p. IsCounted (S.stand standing.new).scope (S.marks standing.new) p) }
{
    match place {
        Place::AtStart => start(alloc, standing, token, mark),
        Place::AfterLabel(label) => keyword(alloc, standing, label, token, mark),
        Place::InConstants(some) => constant(alloc, standing, some, token, mark),
        Place::InVariables(some) => variable(alloc, standing, some, token, mark),
        Place::InDistinct(variables) => distinct(alloc, standing, variables, token, mark),
        Place::FloatType(label) => type_code(standing, label, token),
        Place::FloatVariable(label, code) => typed_variable(standing, label, code, token),
        Place::FloatEnd(float) => float_end(alloc, standing, float, token, mark),
        Place::InHypothesis(label, words) => {
            hypothesis(alloc, standing, label, words, token, mark)
        }
        Place::InAxiom(label, words) => axiom(alloc, standing, label, words, token, mark),
        Place::InTheorem(label, words) => theorem(alloc, standing, label, words, token, mark),
        Place::InProof(begun) => proof_place_by_mark(alloc, standing, begun, token, mark),
    }
}

/// The same, by the language; and what is so at a place is so behind the token too.
fn next_place<'a, S: Standing<'a>>(
    alloc: Global,
    standing: &mut S,
    place: Place<'a>,
    token: Token<'a>,
    mark: Mark,
) -> Result<Place<'a>, Stop>
    requires ready { IsReadySource (S.stand standing.old) (S.marks standing.old) place }
    requires mark { mark ≡ mark_of token.text.now }
    ensures leads { Leads (S.stand standing.new) result (row (seen_at (S.stand standing.old) place.entry) (seen token.entry)) }
    ensures ready { IfOk result (λ p. IsReadySource (S.stand standing.new) (S.marks standing.new) p) }
{
    place_by_mark(alloc, standing, place, token, mark)
}

impl<'a, S: Standing<'a>, P: KeepsPlace<'a, S>> Reader<'a> for SourceReader<S, P> {
    ghost use Rattle.source.specs.Scopes.{Scope};
    ghost use Rattle.source.specs.Faults.{Position, source_language};
    ghost use Rattle.sourcereader.specs.Standing.{IsReadySource};
    ghost use Rattle.sourcereader.specs.Views.{seen_at};

    type Said = S;

    ghost Place = { Position };

    ghost Meaning = { Scope };

    ghost language = { λ _. source_language };

    ghost place = { λ r. seen_at (S.stand r.standing) (P.kept r.place) };

    ghost IsReady = { λ r. IsReadySource (S.stand r.standing) (S.marks r.standing) (P.kept r.place) };

    ghost meaning = { λ s. (S.stand s).scope };

    fn most_bytes(&self) -> usize {
        MOST_BYTES
    }

    fn take_word(&mut self, _alloc: Global, token: Token<'a>) -> Result<bool, Stop> {
        self.place.take_word(&mut self.standing, token)
    }

    fn take(&mut self, alloc: Global, token: Token<'a>, mark: Mark) -> Result<(), Stop> {
        let here = self.place.replace(Place::AtStart);
        let next = next_place(alloc, &mut self.standing, here, token, mark)?;
        drop(self.place.replace(next));
        Ok(())
    }

    fn finish(mut self) -> Option<S> {
        let here = self.place.replace(Place::AtStart);
        let is_at_start = matches!(&here, Place::AtStart);
        drop(here);
        // No block is open where none can be closed.
        if is_at_start && !self.standing.close_block() {
            return Some(self.standing);
        }
        None
    }
}

/// What stands behind a text, read from a place at its start.
fn read_from<'a, S: Standing<'a>, P: KeepsPlace<'a, S>>(
    alloc: Global,
    standing: S,
    place: P,
    text: &'a [u8],
) -> Result<S, TextFault>
    requires outset { S.stand standing ≡ outset }
    requires start { P.kept place ≡ AtStart }
    ensures { IsReadAs (λ s. (S.stand s).scope) source_language text.now result }
{
    read(alloc, SourceReader { standing, place }, text)
}

/// What stands behind a text in the whole language, where at first nothing is declared.
///
/// Comments are passed over. What the text declares is put into `standing`, whose words are slices of the text; a `$p` is put there only
/// where its proof denotes a tree, in which a `?` is a leaf. No proof is checked further than that.
///
/// # Errors
///
/// The first fault of the text, from the front. Its length comes first, then its bytes, then each token; where a token breaks more than
/// one rule, the first below counts.
///
/// - `TooLong` at 268,435,456: the text has more bytes than that.
/// - `BadByte`: a byte that is neither printable ASCII nor white space, also in a comment.
/// - `BadToken`: in a comment a token other than `$)` that has `$(` or `$)` in it; outside of comments `$)`.
/// - `OutOfProfile`: `$[` or `$]` outside of comments.
/// - At the start of a statement: `BadToken` for `$c` in a block, for `$}` where none is open, and for what isn't `$c`, `$v`, `$d`, `${`,
///   `$}` or a label: letters, digits, `-`, `_` and `.`.
/// - Behind a label: `BadToken` for what isn't `$f`, `$e`, `$a` or `$p`.
/// - At the label, once its keyword has passed: `RepeatedLabel` if an earlier label or symbol is equal, also of a closed block.
/// - In `$c`: `BadToken` for a token with `$`, also a `$.` with no symbol before it; `RepeatedLabel` where an earlier symbol or label is
///   equal, also of a closed block.
/// - In `$v`: the same, but for a variable that isn't active, which may be declared again.
/// - In `$d`: `BadToken` for a token with `$`, also a `$.` behind fewer than two variables; `UnknownSymbol` for what no `$v` declared;
///   `NotActive` for a variable of a closed block; `BadToken` for one that stands twice.
/// - In `$f`: `BadToken` for a token with `$`; `UnknownSymbol` where the type isn't a constant; for the variable as in `$d`, and
///   `RepeatedLabel` where it has an active `$f`; `BadToken` for what isn't `$.` behind them.
/// - In `$e`, `$a` and `$p`: `BadToken` for a token with `$`, also an end with no symbol before it; `UnknownSymbol` where the first symbol
///   isn't a constant or a later one isn't declared; `NotActive` for a variable of a closed block; `NoTypeFor` for one without an active
///   `$f`.
/// - In a proof, for a label, which may be that of an active hypothesis or of an earlier assertion: `BadToken` for a token with `$`, also a
///   `$.` with no step before it; `UnknownLabel` for one that nothing before has; `NotActive` for that of a hypothesis of a closed block.
///   Where it is a step, `BadToken` if fewer entries are there than it takes; a `?` takes none, and puts one as each step does. In
///   parentheses, `BadToken` for that of a mandatory hypothesis.
/// - Behind parentheses: `BadToken` for a word with a byte other than `A` to `Z` and `?`, also a `$.` with no word before it; for a word
///   with a number that names nothing or takes what isn't there, with a `?` that cuts a number, and with a `Z` that stands elsewhere than
///   right behind the number of an assertion or another `Z`.
/// - At the `$.` of a proof: `BadToken` where other than one entry is left, or a number is cut.
/// - `Unfinished` at the length of the text: it ends in a statement, in a block or in a comment.
/// - `NoMemory`: memory ran out; its place is 0, whatever was read.
pub fn read_source<'a, S: Standing<'a>>(
    alloc: Global,
    standing: S,
    text: &'a [u8],
) -> Result<S, TextFault>
    requires { S.stand standing ≡ outset }
    // What is read is declared so, and what is declared so is read, unless memory runs out; a fault is the text's, or want of memory.
    ensures { IsRead source_language DeclaresText text.now (seen_by (λ s. (S.stand s).scope) result) }
{
    read_from(alloc, standing, Place::AtStart, text)
}
