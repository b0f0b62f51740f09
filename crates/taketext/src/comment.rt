//! The comment in front of a library that was taken.

ghost use Rattle.std.specs.Prelude.{◌≡◌, ◌++◌, ◌∷◌, ◌<◌, [], codes, map, OnOk};
ghost use Rattle.std.specs.Fmt.{decimal};
ghost use Rattle.std.specs.List.{flat_map};
ghost use Rattle.mmsyntax.specs.Layout.{spaced};
ghost use Rattle.source.specs.Views.{seen_words};
ghost use Rattle.taketext.specs.Comments.{shown_byte, shown_path, digit, digits, chosen_line, name_line, reason_line, axiom_line};
ghost use Rattle.taketext.specs.Comments.{source_lines, names_lines, axioms_lines, comment_of};

use choosing::Wish;
use intake::Taken;
use mmsyntax::Label;
use sha2::{Digest, Sha256};
use std::alloc::{AllocError, Global};
use taking::Reason;

/// A byte of a path as a comment shows it.
fn shown_byte(byte: u8) -> u8
    ensures { result ≡ shown_byte byte }
{
    match byte {
        b'$' => b'?',
        33..=126 => byte,
        _ => b'?',
    }
}

/// Puts a path as a comment shows it.
fn put_path(out: &mut Vec<u8>, path: &[u8]) -> Result<(), AllocError>
    ensures { OnOk result (out.new.items ≡ out.old.items ++ shown_path path.now) }
{
    for byte in path {
        out.push(shown_byte(*byte))?;
    }
    Ok(())
}

/// A digit, of a number below 16.
fn digit(number: u8) -> u8
    requires { number < 16 }
    ensures { result ≡ digit number }
{
    if number < 10 {
        48 + number
    } else {
        87 + number
    }
}

/// Puts the digits of bytes.
fn put_digits(out: &mut Vec<u8>, bytes: &[u8]) -> Result<(), AllocError>
    ensures { OnOk result (out.new.items ≡ out.old.items ++ flat_map digits bytes.now) }
{
    for byte in bytes {
        out.push(digit(*byte / 16))?;
        out.push(digit(*byte % 16))?;
    }
    Ok(())
}

/// Puts how many bytes a source has.
fn put_size(alloc: Global, out: &mut Vec<u8>, count: usize) -> Result<(), AllocError>
    ensures { OnOk result (out.new.items ≡ out.old.items ++ (10 ∷ codes "   " ++ (decimal count ++ codes " bytes, SHA-256 "))) }
{
    let text = format!(in alloc; "\n   {count} bytes, SHA-256 ")?;
    out.extend_from_slice(text.as_bytes())
}

/// Puts the lines of the source.
fn put_source(
    alloc: Global,
    out: &mut Vec<u8>,
    path: &[u8],
    source: &[u8],
) -> Result<(), AllocError>
    ensures { OnOk result (out.new.items ≡ out.old.items ++ source_lines path.now source.now) }
{
    out.extend_from_slice(b"$( Taken by mmrefactor from ")?;
    put_path(out, path)?;
    put_size(alloc, out, source.len())?;
    let digest = Sha256::digest(source);
    put_digits(out, &digest)?;
    out.push(b'\n')?;
    Ok(())
}

/// Puts words, each with a space before it.
fn put_words(out: &mut Vec<u8>, words: &[&[u8]]) -> Result<(), AllocError>
    ensures { OnOk result (out.new.items ≡ out.old.items ++ spaced (seen_words words.now)) }
{
    for word in words {
        out.push(b' ')?;
        out.extend_from_slice(word)?;
    }
    Ok(())
}

/// Puts the line of what was wished for.
fn put_wish(out: &mut Vec<u8>, wish: Wish<'_>) -> Result<(), AllocError>
    ensures { OnOk result (out.new.items ≡ out.old.items ++ chosen_line wish.entry) }
{
    match wish {
        Wish::All => out.extend_from_slice(b"   Chosen: all assertions\n"),
        Wish::For(asked) => {
            out.extend_from_slice(b"   Chosen: for")?;
            put_words(out, asked)?;
            out.push(b'\n')?;
            Ok(())
        }
        Wish::Between(from, to) => {
            out.extend_from_slice(b"   Chosen: from ")?;
            out.extend_from_slice(from)?;
            out.extend_from_slice(b" to ")?;
            out.extend_from_slice(to)?;
            out.push(b'\n')?;
            Ok(())
        }
        Wish::These(labels, _) => {
            out.extend_from_slice(b"   Chosen: just")?;
            put_words(out, labels)?;
            out.push(b'\n')?;
            Ok(())
        }
    }
}

/// Puts the line of a name that was changed.
fn put_name(out: &mut Vec<u8>, word: &[u8], name: &Label) -> Result<(), AllocError>
    ensures { OnOk result (out.new.items ≡ out.old.items ++ name_line (word.now, name.now)) }
{
    out.extend_from_slice(b"     ")?;
    out.extend_from_slice(word)?;
    out.extend_from_slice(b" is ")?;
    out.extend_from_slice(name.as_slice())?;
    out.push(b'\n')?;
    Ok(())
}

/// Puts the line of the number of names that were changed.
fn put_names_count(alloc: Global, out: &mut Vec<u8>, count: usize) -> Result<(), AllocError>
    ensures { OnOk result (out.new.items ≡ out.old.items ++ (codes "   Changed names: " ++ (decimal count ++ 10 ∷ []))) }
{
    let line = format!(in alloc; "   Changed names: {count}\n")?;
    out.extend_from_slice(line.as_bytes())
}

/// Puts the lines of the names that were changed.
fn put_names(alloc: Global, out: &mut Vec<u8>, names: &[(&[u8], Label)]) -> Result<(), AllocError>
    ensures { OnOk result (out.new.items ≡ out.old.items ++ names_lines (map (λ p. (p.0.now, p.1)) names.now)) }
{
    put_names_count(alloc, out, names.len())?;
    for pair in names {
        put_name(out, pair.0, &pair.1)?;
    }
    Ok(())
}

/// A reason as a comment tells it, to the end of its line.
fn reason_text(reason: Reason) -> &'static [u8]
    ensures { result.now ≡ reason_line reason }
{
    match reason {
        Reason::Unfinished => b": its proof is unfinished\n".as_slice(),
        Reason::TooLong => b": its proof has over 16384 steps\n".as_slice(),
        Reason::InFront => b": it stands in front of the choice\n".as_slice(),
        Reason::CitesUnchosen => b": it cites what is not chosen\n".as_slice(),
        Reason::LongExpression => {
            b": an expression of its proof has over 65535 symbols\n".as_slice()
        }
    }
}

/// Puts a reason, to the end of its line.
fn put_reason(out: &mut Vec<u8>, reason: Reason) -> Result<(), AllocError>
    ensures { OnOk result (out.new.items ≡ out.old.items ++ reason_line reason) }
{
    out.extend_from_slice(reason_text(reason))
}

/// Puts the line of a theorem that is taken as an axiom.
fn put_axiom(out: &mut Vec<u8>, label: &[u8], reason: Reason) -> Result<(), AllocError>
    ensures { OnOk result (out.new.items ≡ out.old.items ++ axiom_line (label.now, reason)) }
{
    out.extend_from_slice(b"     ")?;
    out.extend_from_slice(label)?;
    put_reason(out, reason)
}

/// Puts the line of the number of theorems that are taken as axioms.
fn put_axioms_count(alloc: Global, out: &mut Vec<u8>, count: usize) -> Result<(), AllocError>
    ensures { OnOk result (out.new.items
        ≡ out.old.items ++ (codes "   Theorems taken as axioms, their proofs unchecked: " ++ (decimal count ++ 10 ∷ []))) }
{
    let line = format!(in alloc; "   Theorems taken as axioms, their proofs unchecked: {count}\n")?;
    out.extend_from_slice(line.as_bytes())
}

/// Puts the lines of the theorems that are taken as axioms.
fn put_axioms(
    alloc: Global,
    out: &mut Vec<u8>,
    axioms: &[(&[u8], Reason)],
) -> Result<(), AllocError>
    ensures { OnOk result (out.new.items ≡ out.old.items ++ axioms_lines (map (λ p. (p.0.now, p.1)) axioms.now)) }
{
    put_axioms_count(alloc, out, axioms.len())?;
    for pair in axioms {
        put_axiom(out, pair.0, pair.1)?;
    }
    Ok(())
}

/// Puts the comment.
pub(crate) fn put_comment(
    alloc: Global,
    out: &mut Vec<u8>,
    path: &[u8],
    source: &[u8],
    wish: Wish<'_>,
    taken: &Taken<'_>,
) -> Result<(), AllocError>
    ensures { OnOk result (out.new.items ≡ out.old.items ++ comment_of path.now source.now wish.entry taken.now) }
{
    put_source(alloc, out, path, source)?;
    put_wish(out, wish)?;
    put_names(alloc, out, taken.names.as_slice())?;
    put_axioms(alloc, out, taken.axioms.as_slice())?;
    out.extend_from_slice(b"$)\n")?;
    Ok(())
}
