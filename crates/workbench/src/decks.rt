//! The decks that subcommands read.

ghost use Rattle.std.specs.Prelude.{◌≡◌, Option, IfErr, IfOk};
ghost use Rattle.cards.specs.Decks.{IsDeck};
ghost use Rattle.card_forms.specs.{
  Forms.{IsFileOf},
  ImageFaults.{IsImageFault},
  ImageFiles.{IsImageFile},
};
ghost use Rattle.workbench.specs.Decks.{form_of};

use crate::characters::{tell_character, tell_remedy};
use crate::undone::Undone;
use card_forms::{
    CardImage, Form, FormError, FormFault, ImageFault, form_told, read_either, read_images,
};
use card_texts::remedy_of;
use cards::Deck;
use command_line::Status;
use std::alloc::Global;
use std::io;
use std::io::Write;

/// A file that is no deck: its path, and its bytes.
#[derive(Clone, Copy)]
pub(crate) struct Named<'a> {
    /// The path.
    pub path: &'a str,
    /// The bytes.
    pub bytes: &'a [u8],
}

/// How many bytes a card takes in column binary.
const CARD_BYTES: usize = 160;

/// The form in which a file is read, where this one may be named: without one that which its first
/// line tells.
fn form_of(form: Option<Form>, bytes: &[u8]) -> Form
    ensures { result ≡ form_of form bytes.now }
{
    match form {
        Some(form) => form,
        None => form_told(bytes),
    }
}

/// A fault of a file that was read as a deck, among those of files of any number of cards.
pub(crate) fn fault_of_deck(fault: FormFault) -> ImageFault {
    ImageFault {
        error: fault.error,
        card: usize::from(fault.card),
        column: fault.column,
    }
}

/// Whether bytes can be only cards in column binary: no glyph that is a letter is among them.
fn is_column_binary(bytes: &[u8]) -> bool {
    bytes.len() % CARD_BYTES == 0 && bytes.iter().all(|byte| *byte < 64)
}

/// Whether the subcommand `punch` takes a byte that is no glyph: a small letter, a tab, a part of a
/// line's end, the end of a text, or the first byte of the mark at the front.
fn is_punched(fault: ImageFault, byte: u8) -> bool {
    match byte {
        b'a'..=b'z' | b'\t' | b'\r' | 0x1A => true,
        0xEF => fault.card == 1 && fault.column == 1,
        _ => false,
    }
}

/// The byte at a place, or 0 behind the last one.
fn byte_at(bytes: &[u8], place: usize) -> u8 {
    bytes.get(place).copied().unwrap_or(0)
}

/// The first four bytes of the character at the place of a fault in a deck text, filled up with
/// zeros.
fn character_at(bytes: &[u8], fault: ImageFault) -> [u8; 4] {
    let cards = fault.card.saturating_sub(1);
    let columns = usize::from(fault.column).saturating_sub(1);
    let place = cards.saturating_mul(81).saturating_add(columns);
    [
        byte_at(bytes, place),
        byte_at(bytes, place.saturating_add(1)),
        byte_at(bytes, place.saturating_add(2)),
        byte_at(bytes, place.saturating_add(3)),
    ]
}

/// The way out for a deck text.
fn way_out_of_text(bytes: &[u8], fault: ImageFault) -> &'static str {
    if is_column_binary(bytes) {
        return "; workbench convert IN OUT binary text takes column binary";
    }
    match fault.error {
        FormError::Length if fault.column <= 80 => "; workbench punch fills lines up",
        FormError::Length => "; workbench punch takes it or says more",
        FormError::Sign(byte) if is_punched(fault, byte) => "; workbench punch takes such texts",
        FormError::Sign(_) => "; workbench punch says more",
        _ => "",
    }
}

/// The way out for a text of SimH.
fn way_out_of_signs(fault: ImageFault) -> &'static str {
    match fault.error {
        FormError::Length => "; workbench punch --signs simh says how long it is",
        FormError::Sign(byte) if is_punched(fault, byte) => {
            "; workbench punch takes such texts by --signs simh"
        }
        FormError::Sign(_) => "; workbench punch --signs simh says more",
        _ => "",
    }
}

/// The way out for column binary.
fn way_out_of_binary(bytes: &[u8], fault: ImageFault) -> &'static str {
    match fault.error {
        FormError::Length if bytes.len() % 2 == 1 => {
            "; it has an odd number of bytes, and a column has two"
        }
        FormError::Length => "; a card has 160 bytes",
        FormError::Sign(_) => "; a byte of column binary is below 64",
        _ => "",
    }
}

/// Whether a carriage return stands behind the digits of a card in a punch file.
fn is_returned(bytes: &[u8], fault: ImageFault) -> bool {
    let cards = fault.card.saturating_sub(1);
    let place = cards.saturating_mul(241).saturating_add(240);
    fault.column == 81 && byte_at(bytes, place) == b'\r'
}

/// The way out for a punch file.
fn way_out_of_digits(bytes: &[u8], fault: ImageFault) -> &'static str {
    match fault.error {
        FormError::Length if is_returned(bytes, fault) => {
            "; a line ends with a line feed alone, and here a carriage return is before it"
        }
        _ => "",
    }
}

/// The way out of a fault of a file, if there is one.
fn way_out(form: Form, bytes: &[u8], fault: ImageFault) -> &'static str {
    match form {
        Form::Text => way_out_of_text(bytes, fault),
        Form::Simh => way_out_of_signs(fault),
        Form::Punch => way_out_of_digits(bytes, fault),
        Form::Binary => way_out_of_binary(bytes, fault),
    }
}

/// The page that says what the form is, where `punch` takes no such file.
fn page_of_form(form: Form, error: FormError) -> &'static str {
    if let FormError::TooManyCards = error {
        return "";
    }
    match form {
        Form::Text | Form::Simh => "",
        Form::Punch | Form::Binary => "; workbench convert --help has the forms",
    }
}

/// What is wrong with the length of a card.
fn words_of_length(form: Form, column: u8) -> &'static str {
    match form {
        Form::Binary => "the file ends within the card",
        _ if column <= 80 => "the card ends before column 80",
        Form::Simh => "the line is longer than a card",
        Form::Text => "the line is longer than a card, or has no end",
        Form::Punch => "the line is longer than 240 digits, or has no line feed behind them",
    }
}

/// Writes a byte that is at fault: its name or the character that it is, or else its number.
fn tell_byte<E: Write>(errors: &mut E, byte: u8) -> io::Result<()> {
    match byte {
        b'\t' => errors.write_all(b"a tab"),
        b'\r' => errors.write_all(b"a carriage return"),
        b' '..=b'~' => {
            let sign = [byte];
            errors.write_all(b"the character ")?;
            errors.write_all(&sign)
        }
        _ => write!(errors, "the byte {byte}"),
    }
}

/// Writes which byte or character of a deck text is no glyph, and what helps.
fn tell_glyph<E: Write>(
    errors: &mut E,
    bytes: &[u8],
    fault: ImageFault,
    byte: u8,
) -> io::Result<()> {
    let is_told = is_punched(fault, byte) || is_column_binary(bytes);
    let character = character_at(bytes, fault);
    if is_told || (b' '..=b'~').contains(&byte) {
        tell_byte(errors, byte)?;
    } else {
        tell_character(errors, &character)?;
    }
    errors.write_all(b" is no sign of the form text")?;
    if is_told {
        return Ok(());
    }
    tell_remedy(errors, remedy_of(&character))
}

/// What is said of a deck of over 2,000 cards where it is to be read as a machine reads it.
pub(crate) const TOO_MANY_CARDS: &str = "more than 2,000 cards, and a bureau's machine reads no \
    more; workbench cut makes decks of parts";

/// Writes what is wrong with a file of a deck.
fn tell_wrong<E: Write>(
    errors: &mut E,
    form: Form,
    bytes: &[u8],
    fault: ImageFault,
) -> io::Result<()> {
    match fault.error {
        FormError::NoMemory => Ok(()),
        FormError::Length => errors.write_all(words_of_length(form, fault.column).as_bytes()),
        FormError::Sign(byte) if form == Form::Text => tell_glyph(errors, bytes, fault, byte),
        FormError::Sign(byte) => {
            tell_byte(errors, byte)?;
            let form = form.word();
            write!(errors, " is no sign of the form {form}")
        }
        FormError::Punches(digits) => {
            errors.write_all(b"the pattern ")?;
            errors.write_all(&digits)?;
            errors.write_all(b" is no character")
        }
        FormError::TooManyCards => errors.write_all(TOO_MANY_CARDS.as_bytes()),
    }
}

/// Says what is wrong with a file of a deck, which was read in a form, if one was named, or in that
/// which its first line tells.
pub(crate) fn tell_form_fault<E: Write>(
    errors: &mut E,
    file: Named<'_>,
    form: Option<Form>,
    fault: ImageFault,
) -> io::Result<Undone> {
    if let FormError::NoMemory = fault.error {
        return Ok(Undone::Memory);
    }
    let Named { path, bytes } = file;
    let form = form_of(form, bytes);
    let card = fault.card;
    let column = fault.column;
    write!(errors, "{path}: card {card} column {column}: ")?;
    tell_wrong(errors, form, bytes, fault)?;
    let way_out = way_out(form, bytes, fault);
    let page = page_of_form(form, fault.error);
    writeln!(errors, "{way_out}{page}")?;
    Ok(Undone::Told(Status::NotDone))
}

/// Reads a deck from a file in a form, or in that which its first line tells.
pub(crate) fn read_as(alloc: Global, form: Option<Form>, bytes: &[u8]) -> Result<Deck, FormFault>
    ensures { IfOk result (λ deck. IsDeck deck × IsFileOf (form_of form bytes.now) bytes.now deck) }
{
    match form {
        Some(form) => card_forms::read(alloc, form, bytes),
        None => read_either(alloc, bytes),
    }
}

/// Reads cards of any number and any patterns from a file in a form, or in that which its first
/// line tells.
pub(crate) fn read_images_as(
    alloc: Global,
    form: Option<Form>,
    bytes: &[u8],
) -> Result<Vec<CardImage>, ImageFault>
    ensures images { IfOk result (λ images.
        IsImageFile (form_of form bytes.now) bytes.now images.items) }
    ensures fault { IfErr result (IsImageFault (form_of form bytes.now) bytes.now) }
{
    read_images(alloc, form_of(form, bytes), bytes)
}
