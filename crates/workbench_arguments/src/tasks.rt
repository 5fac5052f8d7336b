//! The tasks that the arguments ask for.

ghost use Rattle.std.specs.Prelude.{IfOk};
ghost use Rattle.command_line.specs.{
  Arguments.{HasArgument, given},
  Plain.{texts},
  Programs.{AsksFor, wish_as},
};
ghost use Rattle.workbench_arguments.specs.Subcommands.{workbench};
ghost use Rattle.card_forms.specs.Forms.{word_of};
ghost use Rattle.workbench_arguments.specs.{
  Tasks.{AreRulesOf, HasEmpty, HasEnds, HasForm, HasKept, HasSigns, HasTabs, IsNarrow, NamesSigns, Wants, WantsCompare, WantsConvert, WantsCut, WantsIntake, WantsList, WantsManifest, WantsPunch, WantsSequence, WantsSource, WantsTask},
  Values.{IsNumeral},
};

use crate::bench_tasks::{code_task, console_task, dump_task, film_task, profile_task, trace_task};
use crate::complaints::{
    NO_COLUMN, NO_EMPTY_LINE, NO_FIRST_NUMBER, NO_FORM, NO_FORM_READ, NO_FORM_WRITTEN,
    NO_LAST_NUMBER, NO_SIGNS, NO_STEP, NO_TABS, NO_WIDTH,
};
use crate::help::{VERSION, page};
use crate::picture_tasks::{card_task, deck_task, page_task, pages_task};
use crate::subcommands::{Subcommand, WORKBENCH};
use crate::values::{column_of, empty_of, narrow_of, signs_of, stops_of};
use card_forms::Form;
use card_texts::{EmptyLine, Rules, Signs};
use command_line::{Asked, Found, Mistake, asked_by};
use core_store::Size;
use std::alloc::Global;
use texts::number_of;
use units::Switches;

/// What a machine begins with.
#[derive(Clone, Copy)]
pub struct Setup<'a> {
    /// The path of its deck, or of the source of its deck.
    pub input: &'a str,
    /// How many positions of storage it has.
    pub size: Size,
    /// The sense switches that are on.
    pub switches: Switches,
}

/// How a text is made a deck.
#[derive(Drop)]
pub struct Punching<'a> {
    /// The path of the text.
    pub text: &'a str,
    /// The path of the deck's text.
    pub out: &'a str,
    /// How the lines are taken.
    pub rules: Rules,
    /// Whether each line that was changed is told.
    pub reports: bool,
}

/// How the files of a folder are taken as decks.
#[derive(Drop)]
pub struct Intake<'a> {
    /// The path of the folder.
    pub folder: &'a str,
    /// The path of the folder of decks.
    pub out: &'a str,
    /// How the lines of a text are taken.
    pub rules: Rules,
    /// The signs of all texts, if they are named.
    pub named: Option<Signs>,
}

/// How the cards of a deck are printed.
#[derive(Clone, Copy)]
pub struct DeckListing<'a> {
    /// The path of the deck.
    pub deck: &'a str,
    /// Whether a ruler stands over the cards.
    pub ruler: bool,
    /// Whether the punches stand under each card.
    pub punches: bool,
}

/// How the cards of a deck are numbered.
#[derive(Clone, Copy)]
pub struct Numbering<'a> {
    /// The path of the deck.
    pub deck: &'a str,
    /// The path of the numbered deck.
    pub out: &'a str,
    /// What stands before each number.
    pub ident: &'a str,
    /// The number of the first card.
    pub first: u32,
    /// What each next number is more.
    pub step: u32,
}

/// How the first and the last card of a part are named.
#[derive(Clone, Copy)]
pub enum Ends<'a> {
    /// By their places, the first one of the deck being 1.
    Places(u32, u32),
    /// By what stands in columns 73 to 80.
    Numbers(&'a str, &'a str),
}

/// What is cut out of a deck, and where it goes.
#[derive(Clone, Copy)]
pub struct Cutting<'a> {
    /// The path of the deck.
    pub deck: &'a str,
    /// The path of the part.
    pub out: &'a str,
    /// The first and the last card of the part.
    pub ends: Ends<'a>,
}

/// Which instructions of a run are printed, and how.
#[derive(Clone, Copy)]
pub struct Tracing<'a> {
    /// What the machine begins with.
    pub setup: Setup<'a>,
    /// The number of the first instruction that is printed.
    pub from: u32,
    /// How many are printed.
    pub count: u32,
    /// The address before whose instruction the run ends, as it is given.
    pub stop: Option<&'a str>,
    /// The path of the source that has the names.
    pub names: Option<&'a str>,
    /// Whether the fields are printed that an instruction works at.
    pub fields: bool,
}

/// Which instructions of a run a film shows, and how.
#[derive(Clone, Copy)]
pub struct Filming<'a> {
    /// What the machine begins with.
    pub setup: Setup<'a>,
    /// The path of the page.
    pub out: &'a str,
    /// The path of the source that has the names.
    pub names: Option<&'a str>,
    /// The number of the first instruction that is shown.
    pub from: u32,
    /// How many instructions before the end of the run it begins, in place of `from`, if it is given.
    pub last: Option<u32>,
    /// How many are shown.
    pub count: u32,
    /// The title of the page, if it is given.
    pub title: Option<&'a str>,
}

/// How a source is made of what a deck loads.
#[derive(Clone, Copy)]
pub struct Coding<'a> {
    /// The path of the deck.
    pub deck: &'a str,
    /// How many positions of storage the machine has.
    pub size: Size,
    /// The path of the source's deck, if it is to be written.
    pub out: Option<&'a str>,
    /// The path of a source whose names are taken.
    pub names: Option<&'a str>,
    /// How many instructions load the program, if it is not loaded once control comes past 080.
    pub after: Option<u32>,
    /// Whether it is run, and what a run begins is an instruction too.
    pub runs: bool,
    /// Whether positions are said by their numbers, and not by labels.
    pub numbers: bool,
}

/// The decks whose digests are printed or compared.
#[derive(Drop)]
pub struct Manifest<'a> {
    /// The paths of the decks, and of folders with decks.
    pub decks: Vec<&'a str>,
    /// The form that all of their files have, if it is named.
    pub form: Option<Form>,
    /// Whether the number of cards is printed too.
    pub counts: bool,
    /// The path of the digests to compare with.
    pub known: Option<&'a str>,
}

/// When a machine is shown, and how much of its storage.
#[derive(Clone, Copy)]
pub struct Dumping<'a> {
    /// What the machine begins with.
    pub setup: Setup<'a>,
    /// How many instructions it does, if it does not go on to its end.
    pub after: Option<u32>,
    /// The address before whose instruction the run ends, as it is given.
    pub stop: Option<&'a str>,
    /// The first position that is asked for.
    pub first: Option<u32>,
    /// The last position that is asked for.
    pub last: Option<u32>,
}

/// What the program is to do. A path that is `-` stands for the standard input or output.
#[derive(Drop)]
pub enum Task<'a> {
    /// Print a text: a page of the help, or the version.
    Show(&'static str),
    /// Take a text as a deck.
    Punch(Punching<'a>),
    /// Print the cards of a deck.
    List(DeckListing<'a>),
    /// Print the cards in which two decks differ.
    Compare {
        /// The path of the first deck.
        one: &'a str,
        /// The path of the second deck.
        other: &'a str,
    },
    /// Number the cards of a deck in columns 73 to 80.
    Number(Numbering<'a>),
    /// Print where the numbers of a deck's cards do not rise.
    CheckNumbers {
        /// The path of the deck.
        deck: &'a str,
    },
    /// Make a deck of one form one of another.
    Convert {
        /// The path of the deck.
        deck: &'a str,
        /// The path of the deck in the other form.
        out: &'a str,
        /// The form that the deck has.
        reads: Form,
        /// The form that is written.
        writes: Form,
    },
    /// Make a deck of some cards of another.
    Cut(Cutting<'a>),
    /// Print a source with its code, or its faults.
    Source {
        /// The path of the source.
        source: &'a str,
        /// Whether its listing has 80 columns.
        narrow: bool,
        /// Whether the cards behind it are listed too.
        with_data: bool,
    },
    /// Print the digests of decks, or compare them with those of a file.
    Manifest(Manifest<'a>),
    /// Take the files of a folder as decks.
    Intake(Intake<'a>),
    /// Print the instructions of a run.
    Trace(Tracing<'a>),
    /// Print the storage after a run.
    Dump(Dumping<'a>),
    /// Print how often a run did each instruction.
    Profile {
        /// What the machine begins with.
        setup: Setup<'a>,
        /// The path of the source that has the names.
        names: Option<&'a str>,
    },
    /// Answer lines about a machine that is gone through step by step.
    Console {
        /// What the machine begins with.
        setup: Setup<'a>,
        /// The path of the source that has the names.
        names: Option<&'a str>,
    },
    /// Draw a card.
    Card {
        /// The path of the deck.
        deck: &'a str,
        /// The number of the card.
        number: u32,
        /// The path of the picture.
        out: &'a str,
    },
    /// Draw the cards of a deck on a page.
    Deck {
        /// The path of the deck.
        deck: &'a str,
        /// The path of the page.
        out: &'a str,
        /// The title of the page, if it is given.
        title: Option<&'a str>,
    },
    /// Draw a listing as pages of paper.
    Pages {
        /// The path of the listing.
        listing: &'a str,
        /// The path of the pages.
        out: &'a str,
        /// The title of the pages, if it is given.
        title: Option<&'a str>,
    },
    /// Draw a job on a page.
    Page {
        /// The source of the job, and what the machine begins with.
        setup: Setup<'a>,
        /// The path of the page.
        out: &'a str,
        /// The title of the page, if it is given.
        title: Option<&'a str>,
    },
    /// Show a run step by step on a page.
    Film(Filming<'a>),
    /// Make a source of what a deck loads.
    Code(Coding<'a>),
}

/// The columns of `--tabs`; none where it is not given.
fn tabs_in(alloc: Global, found: &Found<'_>) -> Result<Vec<u8>, Mistake<'static>>
    ensures { IfOk result (λ tabs. HasTabs (given found.now) tabs.items) }
{
    match found.value("tabs") {
        Some(text) => stops_of(alloc, text)?.ok_or(Mistake::Value(NO_TABS)),
        None => Ok(Vec::new(alloc)),
    }
}

/// The table of `--signs`; the glyphs of a deck text where it is not given.
fn signs_in(found: &Found<'_>) -> Result<Signs, Mistake<'static>>
    ensures { IfOk result (λ signs. HasSigns (given found.now) signs) }
{
    match found.value("signs") {
        Some(argument) => signs_of(argument).ok_or(Mistake::Value(NO_SIGNS)),
        None => Ok(Signs::Bureau),
    }
}

/// The table that `--signs` names, if it is given.
fn named_in(found: &Found<'_>) -> Result<Option<Signs>, Mistake<'static>>
    ensures { IfOk result (λ named. NamesSigns (given found.now) named) }
{
    let Some(argument) = found.value("signs") else {
        return Ok(None);
    };
    let signs = signs_of(argument).ok_or(Mistake::Value(NO_SIGNS))?;
    Ok(Some(signs))
}

/// The column of `--keep`, if it is given.
fn kept_in(found: &Found<'_>) -> Result<Option<u8>, Mistake<'static>>
    ensures { IfOk result (λ keeps. HasKept (given found.now) keeps) }
{
    let Some(text) = found.value("keep") else {
        return Ok(None);
    };
    let column = column_of(text).ok_or(Mistake::Value(NO_COLUMN))?;
    Ok(Some(column))
}

/// What an empty line is by `--empty`; a card where it is not given.
fn empty_in(found: &Found<'_>) -> Result<EmptyLine, Mistake<'static>>
    ensures { IfOk result (λ empty. HasEmpty (given found.now) empty) }
{
    match found.value("empty") {
        Some(argument) => empty_of(argument).ok_or(Mistake::Value(NO_EMPTY_LINE)),
        None => Ok(EmptyLine::Card),
    }
}

/// How the lines of a text are taken, by the options of `punch`.
fn rules_in(alloc: Global, found: &Found<'_>) -> Result<Rules, Mistake<'static>>
    ensures { IfOk result (AreRulesOf (given found.now)) }
{
    Ok(Rules {
        folds: found.has_flag("fold"),
        tabs: tabs_in(alloc, found)?,
        signs: signs_in(found)?,
        keeps: kept_in(found)?,
        empty: empty_in(found)?,
    })
}

/// The task of a subcommand `punch`.
fn punch_task<'a>(alloc: Global, found: &Found<'a>) -> Result<Task<'a>, Mistake<'static>>
    ensures { IfOk result (WantsPunch (given found.now)) }
{
    let text = found.needed("IN")?;
    let out = found.needed("OUT")?;
    let rules = rules_in(alloc, found)?;
    Ok(Task::Punch(Punching {
        text,
        out,
        rules,
        reports: found.has_flag("report"),
    }))
}

/// The task of a subcommand `intake`.
fn intake_task<'a>(alloc: Global, found: &Found<'a>) -> Result<Task<'a>, Mistake<'static>>
    ensures { IfOk result (WantsIntake (given found.now)) }
{
    let folder = found.needed("FOLDER")?;
    let out = found.needed("OUT")?;
    let rules = rules_in(alloc, found)?;
    let named = named_in(found)?;
    Ok(Task::Intake(Intake {
        folder,
        out,
        rules,
        named,
    }))
}

/// The task of a subcommand `list`.
fn list_task<'a>(found: &Found<'a>) -> Result<Task<'a>, Mistake<'static>>
    ensures { IfOk result (WantsList (given found.now)) }
{
    Ok(Task::List(DeckListing {
        deck: found.needed("DECK")?,
        ruler: found.has_flag("ruler"),
        punches: found.has_flag("punches"),
    }))
}

/// The task of a subcommand `compare`.
fn compare_task<'a>(found: &Found<'a>) -> Result<Task<'a>, Mistake<'static>>
    ensures { IfOk result (WantsCompare (given found.now)) }
{
    let one = found.needed("ONE")?;
    let other = found.needed("OTHER")?;
    Ok(Task::Compare { one, other })
}

/// A number of 1 to 9 digits without a zero in front. Of another text this is said.
pub(crate) fn number(text: &str, complaint: &'static str) -> Result<u32, Mistake<'static>>
    ensures { IfOk result (IsNumeral text.now) }
{
    number_of(text).ok_or(Mistake::Value(complaint))
}

/// The task of a subcommand `sequence`: with one value a check, with five a numbering.
fn sequence_task<'a>(found: &Found<'a>) -> Result<Task<'a>, Mistake<'static>>
    ensures { IfOk result (WantsSequence (given found.now)) }
{
    let deck = found.needed("IN")?;
    if found.value("OUT").is_none() {
        return Ok(Task::CheckNumbers { deck });
    }
    Ok(Task::Number(Numbering {
        deck,
        out: found.needed("OUT")?,
        ident: found.needed("IDENT")?,
        first: number(found.needed("FIRST")?, NO_FIRST_NUMBER)?,
        step: number(found.needed("STEP")?, NO_STEP)?,
    }))
}

/// The form that an argument names. Of another text this is said.
fn form_in(
    found: &Found<'_>,
    name: &'static str,
    complaint: &'static str,
) -> Result<Form, Mistake<'static>>
    ensures { IfOk result (λ form.
        HasArgument name.now (given found.now) (word_of form)) }
{
    Form::of(found.needed(name)?).ok_or(Mistake::Value(complaint))
}

/// The task of a subcommand `convert`.
fn convert_task<'a>(found: &Found<'a>) -> Result<Task<'a>, Mistake<'static>>
    ensures { IfOk result (WantsConvert (given found.now)) }
{
    Ok(Task::Convert {
        deck: found.needed("IN")?,
        out: found.needed("OUT")?,
        reads: form_in(found, "FROM", NO_FORM_READ)?,
        writes: form_in(found, "TO", NO_FORM_WRITTEN)?,
    })
}

/// The first and the last card of a part: their places, or by `--numbers` what stands on them.
fn ends_in<'a>(found: &Found<'a>) -> Result<Ends<'a>, Mistake<'static>>
    ensures { IfOk result (HasEnds (given found.now)) }
{
    let first = found.needed("FIRST")?;
    let last = found.needed("LAST")?;
    if found.has_flag("numbers") {
        return Ok(Ends::Numbers(first, last));
    }
    let first = number(first, NO_FIRST_NUMBER)?;
    let last = number(last, NO_LAST_NUMBER)?;
    Ok(Ends::Places(first, last))
}

/// The task of a subcommand `cut`.
fn cut_task<'a>(found: &Found<'a>) -> Result<Task<'a>, Mistake<'static>>
    ensures { IfOk result (WantsCut (given found.now)) }
{
    Ok(Task::Cut(Cutting {
        deck: found.needed("IN")?,
        out: found.needed("OUT")?,
        ends: ends_in(found)?,
    }))
}

/// Whether `--width` asks for 80 columns; not where it is not given.
fn narrow_in(found: &Found<'_>) -> Result<bool, Mistake<'static>>
    ensures { IfOk result (λ narrow. IsNarrow (given found.now) narrow) }
{
    match found.value("width") {
        Some(argument) => narrow_of(argument).ok_or(Mistake::Value(NO_WIDTH)),
        None => Ok(false),
    }
}

/// The task of a subcommand `source`.
fn source_task<'a>(found: &Found<'a>) -> Result<Task<'a>, Mistake<'static>>
    ensures { IfOk result (WantsSource (given found.now)) }
{
    Ok(Task::Source {
        source: found.needed("IN")?,
        narrow: narrow_in(found)?,
        with_data: found.has_flag("data"),
    })
}

/// The form that `--form` names, if it is given.
fn option_form_in(found: &Found<'_>) -> Result<Option<Form>, Mistake<'static>>
    ensures { IfOk result (λ form. HasForm (given found.now) form) }
{
    let Some(argument) = found.value("form") else {
        return Ok(None);
    };
    let form = Form::of(argument).ok_or(Mistake::Value(NO_FORM))?;
    Ok(Some(form))
}

/// The task of a subcommand `manifest`.
fn manifest_task<'a>(alloc: Global, found: &Found<'a>) -> Result<Task<'a>, Mistake<'static>>
    ensures { IfOk result (WantsManifest (given found.now)) }
{
    let decks = found.values(alloc, "FILE")?;
    let form = option_form_in(found)?;
    let counts = found.has_flag("cards");
    let known = found.value("check");
    Ok(Task::Manifest(Manifest {
        decks,
        form,
        counts,
        known,
    }))
}

/// The task of a subcommand, by what clap found after its name.
fn subcommand_task<'a>(
    alloc: Global,
    subcommand: Subcommand,
    found: &Found<'a>,
) -> Result<Task<'a>, Mistake<'static>>
    ensures { IfOk result (WantsTask subcommand (given found.now)) }
{
    match subcommand {
        Subcommand::Punch => punch_task(alloc, found),
        Subcommand::List => list_task(found),
        Subcommand::Compare => compare_task(found),
        Subcommand::Sequence => sequence_task(found),
        Subcommand::Source => source_task(found),
        Subcommand::Manifest => manifest_task(alloc, found),
        Subcommand::Convert => convert_task(found),
        Subcommand::Cut => cut_task(found),
        Subcommand::Intake => intake_task(alloc, found),
        Subcommand::Trace => trace_task(found),
        Subcommand::Dump => dump_task(found),
        Subcommand::Profile => profile_task(found),
        Subcommand::Console => console_task(found),
        Subcommand::Card => card_task(found),
        Subcommand::Deck => deck_task(found),
        Subcommand::Pages => pages_task(found),
        Subcommand::Page => page_task(found),
        Subcommand::Film => film_task(found),
        Subcommand::Code => code_task(found),
    }
}

/// What the arguments ask for.
fn wish_of<'a>(alloc: Global, arguments: &'a [String]) -> Result<Asked<'a, Subcommand>, Mistake<'a>>
    ensures { IfOk result (λ asked. AsksFor workbench (texts arguments.entry.now) (wish_as asked)) }
{
    asked_by(alloc, &WORKBENCH, arguments)
}

/// Returns the task that the arguments after the program's name ask for, or else what is wrong with
/// them.
pub fn task_of<'a>(alloc: Global, arguments: &'a [String]) -> Result<Task<'a>, Mistake<'a>>
    ensures { IfOk result (Wants (texts arguments.entry.now)) }
{
    let asked = wish_of(alloc, arguments)?;
    match asked {
        Asked::Help(subcommand) => Ok(Task::Show(page(subcommand))),
        Asked::Version => Ok(Task::Show(VERSION)),
        Asked::Subcommand(subcommand, found) => subcommand_task(alloc, subcommand, &found),
    }
}
