//! Decoding a proof: from codes to nodes.

ghost use Rattle.std.specs.Prelude.{◌≡◌, ◌<◌, List, length, All, IfOk, IfSome, Some, [], true};
ghost use Rattle.mmtext.specs.Words.{Word};
ghost use Rattle.source.specs.Proofs.{Tree};
ghost use Rattle.taking.specs.Walks.{TakesAll};
ghost use Rattle.taking.specs.Decoded.{AreDecoded, AreLabelsOf, tree_of};
ghost use Rattle.taking.specs.Decoding.{StandsOn, IsCited, IsRepeated, IsMarked, IsCodeTaken, IsLeft};

use crate::decoded::DecodedProof;
use crate::named::Named;
use crate::nodes::Nodes;
use source::Code;
use std::alloc::{AllocError, Global};

/// What is on the stack while a proof is decoded, as places of nodes: the entries, and those that are marked.
#[derive(Drop)]
struct Decoder {
    nodes: Nodes,
    entries: Vec<usize>,
    marked: Vec<usize>,
}

impl Decoder {
    /// Nothing is on the stack.
    fn new(alloc: Global) -> Decoder
        ensures nodes { result.nodes ≡ [] }
        ensures entries { result.entries.items ≡ [] }
        ensures marked { result.marked.items ≡ [] }
    {
        Decoder {
            nodes: Nodes::new(alloc),
            entries: Vec::new(alloc),
            marked: Vec::new(alloc),
        }
    }

    /// The label with a number, from 0, takes its entries: whether they are there. After an error nothing is said of the stack.
    fn cite(&mut self, named: &[Named], place: usize) -> Result<bool, AllocError>
        requires within { place < length named.now }
        requires stands { StandsOn named.now self.old }
        ensures stands { IfOk result (λ there. there ≡ true → StandsOn named.now self.new) }
        ensures cited { IfOk result (λ there. IsCited named.now place self.old self.new there) }
    {
        let arity = named[place].floats.as_slice().len();
        let count = self.entries.len();
        if count < arity {
            return Ok(false);
        }
        let node = self.nodes.len();
        self.nodes.push(place, &self.entries[count - arity..])?;
        self.entries.truncate(count - arity);
        self.entries.push(node)?;
        Ok(true)
    }

    /// The marked entry with a number, from 0, goes on again: whether it is there. After an error nothing is said of the stack.
    fn repeat(&mut self, named: &[Named], number: usize) -> Result<bool, AllocError>
        requires { StandsOn named.now self.old }
        ensures stands { IfOk result (λ there. there ≡ true → StandsOn named.now self.new) }
        ensures repeated { IfOk result (λ there. IsRepeated number self.old self.new there) }
    {
        let Some(node) = self.marked.get(number).copied() else {
            return Ok(false);
        };
        self.entries.push(node)?;
        Ok(true)
    }

    /// The last entry is marked: whether there is one. After an error nothing is said of the stack.
    fn mark(&mut self, named: &[Named]) -> Result<bool, AllocError>
        requires { StandsOn named.now self.old }
        ensures stands { IfOk result (λ there. there ≡ true → StandsOn named.now self.new) }
        ensures marked { IfOk result (λ there. IsMarked self.old self.new there) }
    {
        let Some(node) = self.entries.last().copied() else {
            return Ok(false);
        };
        self.marked.push(node)?;
        Ok(true)
    }

    /// What a code does: whether what it takes is there, and the step itself is. After an error nothing is said of the stack.
    fn take(&mut self, named: &[Named], code: Code) -> Result<bool, AllocError>
        requires { StandsOn named.now self.old }
        ensures stands { IfOk result (λ there. there ≡ true → StandsOn named.now self.new) }
        ensures taken { IfOk result (λ there. IsCodeTaken named.now code self.old self.new there) }
    {
        match code {
            Code::Number(number) => {
                let place = (number as usize).saturating_sub(1);
                if place < named.len() {
                    self.cite(named, place)
                } else {
                    self.repeat(named, place - named.len())
                }
            }
            Code::Mark => self.mark(named),
            Code::Unknown => Ok(false),
        }
    }

    /// The proof, if one entry is left.
    fn into_proof(self, named: &[Named]) -> Option<DecodedProof>
        requires { StandsOn named.now self }
        ensures whole { IfSome result (λ proof. All (TakesAll named.now) proof.nodes) }
        ensures left { IsLeft self result }
        ensures cites { IfSome result (λ d. (labels : List Word) (t : Tree) → tree_of labels d ≡ Some t → AreLabelsOf labels d.nodes t) }
    {
        if self.entries.len() != 1 {
            return None;
        }
        let root = self.entries[0];
        Some(DecodedProof {
            nodes: self.nodes,
            root,
        })
    }
}

/// Decodes a proof: its codes count the labels that name what is named, from 1, and then the marked subproofs. Nothing where they denote no
/// proof, or a step isn't there.
///
/// A marked subproof is made once: it takes as many nodes as there are numbers.
pub fn decode(
    alloc: Global,
    named: &[Named],
    codes: &[Code],
) -> Result<Option<DecodedProof>, AllocError>
    ensures whole { IfOk result (λ made. IfSome made (λ proof. All (TakesAll named.now) proof.nodes)) }
    ensures decoded { IfOk result (λ made. AreDecoded named.now codes.now made) }
    ensures cites { IfOk result (λ made. IfSome made (λ d. (labels : List Word) (t : Tree)
        → tree_of labels d ≡ Some t → AreLabelsOf labels d.nodes t)) }
{
    let mut decoder = Decoder::new(alloc);
    for code in codes {
        if !decoder.take(named, *code)? {
            return Ok(None);
        }
    }
    Ok(decoder.into_proof(named))
}
