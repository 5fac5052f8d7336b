//! The subcommand `manifest`.

ghost use Rattle.std.specs.Prelude.{◌≡◌, ◌<◌, List, length, IfOk};
ghost use Rattle.card_forms.specs.{ImageFiles.{IsImageFile}, declared.images.CardImage.{CardImage}};
ghost use Rattle.workbench.specs.Decks.{form_of, line_by};

use crate::decks::{Named, read_images_as, tell_form_fault};
use crate::folders::{Found, files_of};
use crate::process::{Process, status_if};
use crate::undone::Undone;
use card_forms::{CardImage, Form, ImageFault, NO_MEMORY};
use card_tools::{ManifestEntry, counted_line, has_count, manifest_line, read_manifest_line};
use command_line::Status;
use std::alloc::{AllocError, Global};
use std::io::Write;
use std::{fs, io};
use workbench_arguments::Manifest;

/// The line of a deck with this name, with the number of its cards if that is asked for.
fn line_by(
    alloc: Global,
    counts: bool,
    deck: &[CardImage],
    name: &[u8],
) -> Result<Vec<u8>, AllocError>
    ensures { IfOk result (λ line. line.items ≡ line_by counts deck.now name.now) }
{
    if counts {
        counted_line(alloc, deck, name)
    } else {
        manifest_line(alloc, deck, name)
    }
}

/// The line of the deck in a file with this name.
fn line_of(
    alloc: Global,
    name: &str,
    form: Option<Form>,
    counts: bool,
    bytes: &[u8],
) -> Result<Vec<u8>, ImageFault>
    ensures { IfOk result (λ line. (images : List CardImage)
        × IsImageFile (form_of form bytes.now) bytes.now images
        × (line.items ≡ line_by counts images name.now)) }
{
    let deck = read_images_as(alloc, form, bytes)?;
    match line_by(alloc, counts, &deck, name.as_bytes()) {
        Ok(line) => Ok(line),
        Err(_) => Err(NO_MEMORY),
    }
}

/// What is said of a name that would be read as a number of cards and another name.
const COUNT_IN_FRONT: &str =
    "its name begins with a number and two blanks, as a line of --cards has; write ./ before it";

/// Why no line can have a name, if none can: other programs, or `--check`, would read another name.
pub(crate) fn hindrance_of(name: &[u8]) -> Option<&'static str> {
    if name.contains(&b'\n') {
        return Some("its name has a line feed; rename it");
    }
    if name.ends_with(b"\r") {
        return Some("its name ends with a carriage return; rename it");
    }
    if has_count(name) {
        return Some(COUNT_IN_FRONT);
    }
    None
}

/// The line of the deck in the file at a path.
fn line_at<W: Write, E: Write>(
    process: &mut Process<W, E>,
    path: &str,
    wanted: &Manifest<'_>,
) -> Result<Vec<u8>, Undone> {
    if let Some(why) = hindrance_of(path.as_bytes()) {
        return Err(process.refuse(path, why)?);
    }
    let bytes = process.read(path)?;
    match line_of(process.alloc(), path, wanted.form, wanted.counts, &bytes) {
        Ok(line) => Ok(line),
        Err(fault) => {
            let file = Named {
                path,
                bytes: &bytes,
            };
            Err(tell_form_fault(&mut process.errors, file, wanted.form, fault)?)
        }
    }
}

/// The lines of decks, and whether there is one for each deck.
#[derive(Drop)]
struct Lines<'a> {
    /// The lines, one after the other.
    text: Vec<u8>,
    /// The names of files that are there, and without a line.
    damaged: Vec<&'a str>,
    /// Whether no deck is without a line.
    whole: bool,
}

/// Adds the name of a file without a line to those that are there, if it is.
fn take_damaged<'a>(
    rt: &HostRuntime,
    damaged: &mut Vec<&'a str>,
    path: &'a str,
) -> Result<(), AllocError> {
    if fs::metadata(rt, path).is_ok() {
        damaged.push(path)?;
    }
    Ok(())
}

/// The lines of the decks in files, one for each path. Where there is none, that is told.
fn lines_at<'a, W: Write, E: Write>(
    process: &mut Process<W, E>,
    files: &'a Found,
    wanted: &Manifest<'_>,
) -> Result<Lines<'a>, Undone> {
    let mut lines = Lines {
        text: Vec::new(process.alloc()),
        damaged: Vec::new(process.alloc()),
        whole: files.whole,
    };
    for path in &files.paths {
        let path = path.as_str();
        match line_at(process, path, wanted) {
            Ok(line) => lines.text.extend_from_slice(&line)?,
            Err(Undone::Told(_)) => {
                lines.whole = false;
                take_damaged(&process.rt, &mut lines.damaged, path)?;
            }
            Err(Undone::Memory) => return Err(Undone::Memory),
        }
    }
    Ok(lines)
}

/// The first line of a text, without its end, and the bytes behind it.
fn split_line(text: &[u8]) -> (&[u8], &[u8])
    requires { 0 < length text.now }
    ensures { length result.1.now < length text.now }
{
    for (place, &byte) in text.iter().enumerate() {
        if byte == b'\n' {
            return (&text[..place], &text[place + 1..]);
        }
    }
    (text, &[])
}

/// The lines of a text, without their ends.
pub(crate) fn lines_of(alloc: Global, text: &[u8]) -> Result<Vec<&[u8]>, AllocError> {
    let mut lines = Vec::new(alloc);
    let mut rest = text;
    while !rest.is_empty() {
        let (line, behind) = split_line(rest);
        lines.push(line)?;
        rest = behind;
    }
    Ok(lines)
}

/// The entry of this name among lines of a manifest.
fn entry_named<'a>(lines: &[&'a [u8]], name: &[u8]) -> Option<ManifestEntry<'a>> {
    for line in lines {
        if let Some(entry) = read_manifest_line(*line) {
            if entry.name == name {
                return Some(entry);
            }
        }
    }
    None
}

/// The digits of a byte.
const DIGITS: [u8; 16] = *b"0123456789ABCDEF";

/// Whether a byte makes a control character, alone or behind this byte.
fn is_control(before: u8, byte: u8) -> bool {
    match byte {
        0..=31 | 127 => true,
        0x80..=0x9F => before == 0xC2,
        _ => false,
    }
}

/// Adds a name, in which each control character is shown by its digits.
fn push_shown(told: &mut Vec<u8>, name: &[u8]) -> Result<(), AllocError> {
    let mut before = 0;
    for &byte in name {
        if is_control(before, byte) {
            let (high, low) = (DIGITS[byte as usize / 16], DIGITS[byte as usize % 16]);
            told.extend_from_slice(&[b'\\', b'x', high, low])?;
        } else {
            told.push(byte)?;
        }
        before = byte;
    }
    Ok(())
}

/// Adds a line: a word, and a name.
fn push_told(told: &mut Vec<u8>, word: &[u8], name: &[u8]) -> Result<(), AllocError> {
    told.extend_from_slice(word)?;
    push_shown(told, name)?;
    told.push(b'\n')?;
    Ok(())
}

/// Whether a name is among these.
fn is_among(name: &[u8], names: &[&str]) -> bool {
    names.iter().any(|other| other.as_bytes() == name)
}

/// What has become of a deck that a manifest knows: whether it is missing, damaged or different.
fn push_changed(
    told: &mut Vec<u8>,
    entry: ManifestEntry<'_>,
    found: &[&[u8]],
    damaged: &[&str],
) -> Result<(), AllocError> {
    match entry_named(found, entry.name) {
        None if is_among(entry.name, damaged) => push_told(told, b"damaged ", entry.name),
        None => push_told(told, b"missing ", entry.name),
        Some(other) if other.digest != entry.digest => {
            push_told(told, b"different ", entry.name)
        }
        Some(_) => Ok(()),
    }
}

/// In what decks differ from those that a manifest knows, by their lines. Files without a line are
/// damaged.
fn differences(
    alloc: Global,
    known: &[&[u8]],
    found: &[&[u8]],
    damaged: &[&str],
) -> Result<Vec<u8>, AllocError> {
    let mut told = Vec::new(alloc);
    for line in known {
        if let Some(entry) = read_manifest_line(*line) {
            push_changed(&mut told, entry, found, damaged)?;
        }
    }
    for line in found {
        if let Some(entry) = read_manifest_line(*line) {
            if entry_named(known, entry.name).is_none() {
                push_told(&mut told, b"new ", entry.name)?;
            }
        }
    }
    Ok(told)
}

/// Says which lines of a manifest's file are none. Returns whether all are.
fn tell_odd_lines<E: Write>(errors: &mut E, path: &str, known: &[&[u8]]) -> io::Result<bool> {
    let mut are_all = true;
    for (place, line) in known.iter().enumerate() {
        if read_manifest_line(*line).is_none() {
            let number = place + 1;
            writeln!(errors, "{path}: line {number} is none that manifest prints")?;
            are_all = false;
        }
    }
    Ok(are_all)
}

/// Compares decks with those that a manifest's file knows.
fn check_manifest<W: Write, E: Write>(
    process: &mut Process<W, E>,
    lines: &Lines<'_>,
    path: &str,
) -> Result<Status, Undone> {
    let known = process.read(path)?;
    let known = lines_of(process.alloc(), &known)?;
    let found = lines_of(process.alloc(), &lines.text)?;
    let are_all = tell_odd_lines(&mut process.errors, path, &known)?;
    let told = differences(process.alloc(), &known, &found, &lines.damaged)?;
    let is_same = told.is_empty() && lines.whole && are_all;
    process.print(&told, status_if(is_same))
}

/// Prints the digests of decks in the order of their names, or compares them with those of a file.
/// A path may be that of a folder.
pub(crate) fn manifest<W: Write, E: Write>(
    process: &mut Process<W, E>,
    wanted: &Manifest<'_>,
) -> Result<Status, Undone> {
    let files = files_of(process, &wanted.decks)?;
    let lines = lines_at(process, &files, wanted)?;
    match wanted.known {
        Some(path) => check_manifest(process, &lines, path),
        None => process.print(&lines.text, status_if(lines.whole)),
    }
}
