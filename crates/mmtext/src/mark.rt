//! The words of the language.

ghost use Rattle.std.specs.Prelude.{◌≡◌, [], ◌∷◌};
ghost use Rattle.mmtext.specs.Words.{has_dollar, is_label_byte, is_label, has_dot, is_digit, all_digits, is_count, has_number};
ghost use Rattle.mmtext.specs.Words.{has_hypothesis_form};
ghost use Rattle.mmtext.specs.Text.{mark_of, dollar_mark, begins_comment_mark, has_comment_mark};

/// What a token is by itself.
#[derive(Clone, Copy, Debug, PartialEq, Eq)]
pub enum Mark {
    /// `$c`
    Constants,
    /// `$v`
    Variables,
    /// `$f`
    Floating,
    /// `$a`
    Axiom,
    /// `$.`
    End,
    /// `$p`
    Provable,
    /// `$e`
    Essential,
    /// `$d`
    Disjoint,
    /// `${`
    Opening,
    /// `$}`
    Closing,
    /// `$=`
    Proof,
    /// `$(`
    Comment,
    /// `$)`
    Uncomment,
    /// `$[`
    Include,
    /// `$]`
    Included,
    /// Any other token with a `$`.
    Stray,
    /// No `$`.
    Plain,
}

/// Whether a `$` stands in a word. A math symbol and a label have none.
pub fn contains_dollar(word: &[u8]) -> bool
    ensures { result ≡ has_dollar word.now }
{
    word.contains(&b'$')
}

/// Whether a `.` stands in a word.
pub fn contains_dot(word: &[u8]) -> bool
    ensures { result ≡ has_dot word.now }
{
    word.contains(&b'.')
}

fn may_stand_in_label(b: u8) -> bool
    ensures { result ≡ is_label_byte b }
{
    (b >= b'A' && b <= b'Z')
        || (b >= b'a' && b <= b'z')
        || (b >= b'0' && b <= b'9')
        || b == b'-'
        || b == b'_'
        || b == b'.'
}

/// Whether a token has only bytes of a label.
pub fn is_label_token(word: &[u8]) -> bool
    ensures { result ≡ is_label word.now }
{
    word.iter().all(|b| may_stand_in_label(*b))
}

fn is_decimal_digit(b: u8) -> bool
    ensures { result ≡ is_digit b }
{
    b >= b'0' && b <= b'9'
}

fn are_digits(word: &[u8]) -> bool
    ensures { result ≡ all_digits word.now }
{
    word.iter().all(|b| is_decimal_digit(*b))
}

/// Whether the bytes are a decimal number from 1 without leading zero.
pub fn is_number_from_one(word: &[u8]) -> bool
    ensures { result ≡ is_count word.now }
{
    match word {
        [] => false,
        [first, rest @ ..] => { *first >= b'1' && *first <= b'9' && are_digits(rest) }
    }
}

/// Whether the word is bytes of a label, a dot and a number.
pub fn names_hypothesis(word: &[u8]) -> bool
    ensures { result ≡ has_hypothesis_form word.now }
{
    let mut rest = word;
    let mut some = false;
    while let [b, others @ ..] = rest {
        if some && *b == b'.' && is_number_from_one(others) {
            return true;
        }
        if !may_stand_in_label(*b) {
            return false;
        }
        some = true;
        rest = others;
    }
    false
}

fn starts_with_parenthesis(word: &[u8]) -> bool
    ensures { result ≡ begins_comment_mark word.now }
{
    match word {
        [] => false,
        [c, ..] => *c == b'(' || *c == b')',
    }
}

/// Whether `$(` or `$)` stands somewhere in a word: in a comment such a word is at fault.
pub fn contains_comment_mark(word: &[u8]) -> bool
    ensures { result ≡ has_comment_mark word.now }
{
    let mut rest = word;
    while let [b, others @ ..] = rest {
        if *b == b'$' && starts_with_parenthesis(others) {
            return true;
        }
        rest = others;
    }
    false
}

/// What a `$` with one byte behind it is.
fn mark_key(key: u8) -> Mark
    ensures { result ≡ dollar_mark (36 ∷ key ∷ []) }
{
    match key {
        b'c' => Mark::Constants,
        b'v' => Mark::Variables,
        b'f' => Mark::Floating,
        b'a' => Mark::Axiom,
        b'.' => Mark::End,
        b'p' => Mark::Provable,
        b'e' => Mark::Essential,
        b'd' => Mark::Disjoint,
        b'{' => Mark::Opening,
        b'}' => Mark::Closing,
        b'=' => Mark::Proof,
        b'(' => Mark::Comment,
        b')' => Mark::Uncomment,
        b'[' => Mark::Include,
        b']' => Mark::Included,
        _ => Mark::Stray,
    }
}

/// The mark of a token: which word of the language it is, if it has a `$`.
#[tactic(auto, unfolding(crate::specs::Text::mark_of))]
pub fn mark_word(word: &[u8]) -> Mark
    ensures { result ≡ mark_of word.now }
{
    if !contains_dollar(word) {
        return Mark::Plain;
    }
    match word {
        [b'$', key] => mark_key(*key),
        _ => Mark::Stray,
    }
}
