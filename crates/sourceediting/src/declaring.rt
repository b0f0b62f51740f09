//! Where the symbols of a source are declared, and from where on a text that is put in has all that it mentions.

use items::{Item, Kind};
use mmtext::next_token;
use std::alloc::{AllocError, Global};
use std::collections::HashMap;
use std::hash::RandomState;

/// A name, and how many items of a source stand up to its declaration: at least one.
#[derive(Clone, Copy)]
pub(crate) struct Declared<'s> {
    pub name: &'s [u8],
    pub from: usize,
}

/// Where names are declared outermost: a constant, a variable, or a `$f` by its label. A variable is declared behind its `$f`.
pub(crate) type Declarations<'s> = HashMap<&'s [u8], Declared<'s>, RandomState>;

/// Notes that a name is declared, up to which declaration so many items stand.
fn declare<'s>(
    declarations: &mut Declarations<'s>,
    name: &'s [u8],
    from: usize,
) -> Result<(), AllocError> {
    declarations.insert(name, Declared { name, from })?;
    Ok(())
}

/// How far a statement was read, outside of comments.
#[derive(Clone, Copy)]
struct Words {
    /// How many words were read.
    count: usize,
    /// Whether it is a list of constants or variables.
    is_list: bool,
    /// Whether it is a `$f`.
    is_float: bool,
    /// Whether a comment is open.
    in_comment: bool,
}

impl Words {
    /// Behind one more word: whether the word is a name that the statement declares.
    fn take(&mut self, word: &[u8]) -> bool {
        if self.in_comment || word == b"$(".as_slice() {
            self.in_comment = word != b"$)".as_slice();
            return false;
        }
        if word == b"$.".as_slice() {
            return false;
        }
        let count = self.count;
        self.count = count.saturating_add(1);
        match count {
            0 => {
                self.is_list = word == b"$c".as_slice() || word == b"$v".as_slice();
                false
            }
            1 => {
                self.is_float = word == b"$f".as_slice();
                self.is_list
            }
            _ => self.is_list || (self.is_float && count == 3),
        }
    }
}

/// Notes what a statement declares, up to which so many items stand.
fn note<'t>(
    declarations: &mut Declarations<'t>,
    statement: &'t [u8],
    count: usize,
) -> Result<(), AllocError> {
    let mut words = Words {
        count: 0,
        is_list: false,
        is_float: false,
        in_comment: false,
    };
    let mut at = 0;
    let mut label = None;
    while let Some(token) = next_token(statement, at) {
        at = token.place + token.text.len();
        if words.take(token.text) {
            declare(declarations, token.text, count)?;
        }
        if words.count == 1 && label.is_none() {
            label = Some(token.text);
        }
    }
    if words.is_float
        && let Some(label) = label
    {
        declare(declarations, label, count)?;
    }
    Ok(())
}

/// Where the names of a source are declared outermost, of which these are the items.
pub(crate) fn declarations_of<'t>(
    alloc: Global,
    keys: RandomState,
    text: &'t [u8],
    items: &[Item<'_>],
) -> Result<Declarations<'t>, AllocError> {
    let mut declarations = HashMap::with_hasher(alloc, keys);
    let mut depth: usize = 0;
    let mut at = 0;
    for (place, item) in items.iter().enumerate() {
        match item.kind {
            Kind::Opening => depth = depth.saturating_add(1),
            Kind::Closing => depth = depth.saturating_sub(1),
            Kind::Other if depth == 0 => {
                let statement = text.get(at..item.end).unwrap_or(b"");
                note(&mut declarations, statement, place.saturating_add(1))?;
            }
            _ => {}
        }
        at = item.end;
    }
    Ok(declarations)
}

/// How far a text was read: comments and the letters of compressed proofs mention nothing.
#[derive(Clone, Copy, PartialEq, Eq)]
enum Reading {
    /// Names are read.
    Names,
    /// A comment is open.
    Comment,
    /// A proof was begun.
    Proof,
    /// Letters are read.
    Letters,
}

impl Reading {
    /// Behind a word.
    fn behind(self, word: &[u8]) -> Reading {
        match self {
            Reading::Comment if word == b"$)".as_slice() => Reading::Names,
            Reading::Comment => Reading::Comment,
            _ if word == b"$.".as_slice() => Reading::Names,
            Reading::Letters => Reading::Letters,
            Reading::Proof if word == b")".as_slice() => Reading::Letters,
            Reading::Proof => Reading::Proof,
            Reading::Names if word == b"$(".as_slice() => Reading::Comment,
            Reading::Names if word == b"$=".as_slice() => Reading::Proof,
            Reading::Names => Reading::Names,
        }
    }
}

/// Of the names that a text mentions, the one that is declared last: none where it mentions none that is declared outermost.
pub(crate) fn needed_by<'s>(declarations: &Declarations<'s>, text: &[u8]) -> Option<Declared<'s>> {
    let mut reading = Reading::Names;
    let mut needed = None;
    let mut at = 0;
    while let Some(token) = next_token(text, at) {
        at = token.place + token.text.len();
        if reading != Reading::Comment && reading != Reading::Letters {
            needed = later(needed, declarations.get(token.text).copied());
        }
        reading = reading.behind(token.text);
    }
    needed
}

/// Of two names, the one that is declared later.
pub(crate) fn later<'s>(
    one: Option<Declared<'s>>,
    other: Option<Declared<'s>>,
) -> Option<Declared<'s>> {
    match (one, other) {
        (Some(one), Some(other)) if one.from < other.from => Some(other),
        (Some(one), _) => Some(one),
        (None, other) => other,
    }
}
