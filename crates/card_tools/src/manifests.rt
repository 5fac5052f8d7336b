//! Lines of a manifest: a deck's digest and a name, and between them the number of its cards, or
//! not.

ghost use Rattle.std.specs.{
  Prelude.{◌≡◌, ◌≢◌, ◌++◌, ◌∷◌, ◌==◌, ℕ, List, [], true, false, IfOk, IfSome, IsNone, OnOk, position, nat_le, nat_lt, ◌&&◌},
  List.{list_all},
};
ghost use Rattle.card_forms.specs.ImageFiles.{image_file_of};
ghost use Rattle.card_tools.specs.Manifests.{BeginsWithField, HasCount, HasNoBlank, HasNoCount, IsEntry, IsName, counted_line, digest_line, digest_of, form_digested, is_decimal, is_hexadecimal, manifest_line, may_be_digest, may_be_number};

use card_forms::{CardImage, Form, are_characters, write_images};
use std::alloc::{AllocError, Global};
use texts::{push_decimal, push_digest};

/// What a line of a manifest says of a deck.
#[derive(Clone, Copy, Debug)]
pub struct ManifestEntry<'a> {
    /// The SHA-256 of a deck's text or punch file, in 64 lower-case hexadecimal digits.
    pub digest: &'a [u8],
    /// The name.
    pub name: &'a [u8],
}

/// Returns the line of a manifest for a deck: the SHA-256 of its deck text (FIPS 180-4) in
/// lower-case hexadecimal digits, two blanks, and the name. Of a deck with a column that is no
/// character it is that of its punch file. Fails only if there is no memory.
pub fn manifest_line(alloc: Global, deck: &[CardImage], name: &[u8]) -> Result<Vec<u8>, AllocError>
    ensures { IfOk result (λ line. line.items ≡ manifest_line deck.now name.now) }
{
    line_with(alloc, deck, name)
}

/// Returns the same line with the number of the deck's cards before the name, and two blanks
/// between them. Fails only if there is no memory.
pub fn counted_line(alloc: Global, deck: &[CardImage], name: &[u8]) -> Result<Vec<u8>, AllocError>
    ensures { IfOk result (λ line. line.items ≡ counted_line deck.now name.now) }
{
    let mut label = Vec::new(alloc);
    push_decimal(&mut label, deck.len())?;
    label.extend_from_slice(b"  ")?;
    label.extend_from_slice(name)?;
    line_with(alloc, deck, &label)
}

/// The form of which the digest of a deck is.
fn form_digested(deck: &[CardImage]) -> Form
    ensures { result ≡ form_digested deck.now }
{
    if are_characters(deck) {
        Form::Text
    } else {
        Form::Punch
    }
}

/// The file of which the digest of a deck is.
fn digested(alloc: Global, deck: &[CardImage]) -> Result<Vec<u8>, AllocError>
    ensures { IfOk result (λ file. file.items ≡ image_file_of (form_digested deck.now) deck.now) }
{
    match write_images(alloc, form_digested(deck), deck) {
        Ok(file) => Ok(file),
        Err(_) => Err(AllocError),
    }
}

/// The line of a deck's digest with this behind it, and a line feed.
fn line_with(alloc: Global, deck: &[CardImage], label: &[u8]) -> Result<Vec<u8>, AllocError>
    ensures { IfOk result (λ line. line.items
        ≡ digest_line (digest_of deck.now) label.now ++ 10 ∷ []) }
{
    let file = digested(alloc, deck)?;
    let mut line = Vec::new(alloc);
    push_digest(alloc, &mut line, &file)?;
    line.extend_from_slice(b"  ")?;
    line.extend_from_slice(label)?;
    line.push(b'\n')?;
    Ok(line)
}

/// The digest and the name of a line of a manifest, which is given without its line feed. What
/// stands before the name may be a number of cards.
pub fn read_manifest_line(line: &[u8]) -> Option<ManifestEntry<'_>>
    ensures found { IfSome result (λ entry. IsEntry line.now entry.digest.now entry.name.now) }
    ensures missing { IsNone result → (digest name : List ℕ) → IsEntry line.now digest name → ⊥ }
{
    let Some((digest, label)) = split_field(line) else {
        return None;
    };
    if !may_be_digest(digest) {
        return None;
    }
    Some(ManifestEntry {
        digest,
        name: name_in(label),
    })
}

/// Returns whether a name begins with one to nine decimal digits and two blanks, and so would be
/// read behind a digest as a number of cards and another name.
pub fn has_count(name: &[u8]) -> bool
    ensures yes { result ≡ true → HasNoCount name.now → ⊥ }
    ensures no { result ≡ false → HasNoCount name.now }
{
    match behind_count(name) {
        Some(_) => true,
        None => false,
    }
}

/// The name in what stands behind a digest.
fn name_in(label: &[u8]) -> &[u8]
    ensures { IsName label.now result.now }
{
    match behind_count(label) {
        Some(name) => name,
        None => label,
    }
}

/// The name behind a number of cards, if there is one.
fn behind_count(label: &[u8]) -> Option<&[u8]>
    ensures found { IfSome result (λ name. (cards : List ℕ) × HasCount label.now cards name.now) }
    ensures none { IsNone result → HasNoCount label.now }
{
    let Some((cards, name)) = split_field(label) else {
        return None;
    };
    if !may_be_number(cards) {
        return None;
    }
    Some(name)
}

/// The first field of the bytes, and what follows the two blanks that end it.
fn split_field(bytes: &[u8]) -> Option<(&[u8], &[u8])>
    ensures field { IfSome result (λ found.
        BeginsWithField bytes.now found.0.now found.1.now) }
    ensures none { IsNone result → (field rest : List ℕ) →
        BeginsWithField bytes.now field rest → ⊥ }
{
    let Some(place) = blank_place(bytes) else {
        return None;
    };
    let (field, behind) = bytes.split_at(place);
    match behind_blanks(behind) {
        Some(rest) => Some((field, rest)),
        None => None,
    }
}

/// The bytes behind two blanks, if they begin with these.
fn behind_blanks(bytes: &[u8]) -> Option<&[u8]>
    ensures found { IfSome result (λ rest. bytes.now ≡ 32 ∷ 32 ∷ rest.now) }
    ensures none { IsNone result → (rest : List ℕ) → bytes.now ≢ 32 ∷ 32 ∷ rest }
{
    match bytes {
        [b' ', b' ', rest @ ..] => Some(rest),
        _ => None,
    }
}

/// The place of the first blank.
fn blank_place(bytes: &[u8]) -> Option<usize>
    ensures { result ≡ position (λ byte. byte == 32) bytes.now }
{
    bytes.iter().position(|byte| *byte == b' ')
}

/// Whether bytes may be a digest.
fn may_be_digest(bytes: &[u8]) -> bool
    ensures { result ≡ may_be_digest bytes.now }
{
    bytes.len() == 64 && are_hexadecimal(bytes)
}

/// Whether all of these are lower-case hexadecimal digits.
fn are_hexadecimal(bytes: &[u8]) -> bool
    ensures { result ≡ list_all is_hexadecimal bytes.now }
{
    bytes.iter().all(|byte| is_hexadecimal(*byte))
}

/// Whether a byte is a lower-case hexadecimal digit.
fn is_hexadecimal(byte: u8) -> bool
    ensures { result ≡ is_hexadecimal byte }
{
    is_decimal(byte) || (97..=102).contains(&byte)
}

/// Whether a byte is a decimal digit.
fn is_decimal(byte: u8) -> bool
    ensures { result ≡ is_decimal byte }
{
    (48..=57).contains(&byte)
}

/// Whether bytes may be a number of cards.
fn may_be_number(bytes: &[u8]) -> bool
    ensures { result ≡ may_be_number bytes.now }
{
    is_one_to_nine(bytes.len()) && are_decimal(bytes)
}

/// Whether a length is 1 to 9.
fn is_one_to_nine(length: usize) -> bool
    ensures { result ≡ (nat_lt 0 length && nat_le length 9) }
{
    0 < length && length <= 9
}

/// Whether all of these are decimal digits.
fn are_decimal(bytes: &[u8]) -> bool
    ensures { result ≡ list_all is_decimal bytes.now }
{
    bytes.iter().all(|byte| is_decimal(*byte))
}
