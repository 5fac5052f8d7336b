//! The rows of words that the program `bureau` takes, and words that are not a row.

use command_line::tell_mistake;
use counter::{Found, Subcommand, Words, WordsFault, words};
use std::alloc::{AllocError, Global};
use std::test::Fail;

/// The names of all values, in an order in which each subcommand has its own.
const NAMES: [&str; 11] = [
    "DECK", "SIZE", "SWITCHES", "IN", "OUT", "FILE", "SCRIPT", "CUSTOMER", "NUMBER", "PORT",
    "COUNT",
];

/// Words, and the row that they are: the subcommand, and each value after its name. A value is any
/// text.
const ROWS: [(&[&str], &str); 25] = [
    (&[], "Standard"),
    (&["--help"], "Help None"),
    (&["-h"], "Help None"),
    (&["serve", "--help"], "Help Some(Serve)"),
    (&["--version"], "Version"),
    (
        &["run", "D", "4000", "A"],
        "Run DECK[D] SIZE[4000] SWITCHES[A]",
    ),
    (
        &["run", "a deck", "x", "-"],
        "Run DECK[a deck] SIZE[x] SWITCHES[-]",
    ),
    (&["run", "-", "0", "GA"], "Run DECK[-] SIZE[0] SWITCHES[GA]"),
    (&["run", "", "", ""], "Run DECK[] SIZE[] SWITCHES[]"),
    (&["assemble", "S", "O"], "Assemble IN[S] OUT[O]"),
    (&["assemble", "-", "-"], "Assemble IN[-] OUT[-]"),
    (&["init", "F"], "Init FILE[F]"),
    (&["init", "init"], "Init FILE[init]"),
    (&["init", "-"], "Init FILE[-]"),
    (&["init", "--", "-x"], "Init FILE[-x]"),
    (&["apply", "F", "S"], "Apply FILE[F] SCRIPT[S]"),
    (&["apply", "F", "-"], "Apply FILE[F] SCRIPT[-]"),
    (
        &["export", "F", "ACME", "9"],
        "Export FILE[F] CUSTOMER[ACME] NUMBER[9]",
    ),
    (
        &["export", "F", "no customer", "09"],
        "Export FILE[F] CUSTOMER[no customer] NUMBER[09]",
    ),
    (
        &["export", "-", "-", "-"],
        "Export FILE[-] CUSTOMER[-] NUMBER[-]",
    ),
    (&["migrate", "F"], "Migrate FILE[F]"),
    (&["migrate", "-"], "Migrate FILE[-]"),
    (
        &["serve", "F", "1401", "10"],
        "Serve FILE[F] PORT[1401] COUNT[10]",
    ),
    (
        &["serve", "F", "0", "many"],
        "Serve FILE[F] PORT[0] COUNT[many]",
    ),
    (&["serve", "-", "-", "-"], "Serve FILE[-] PORT[-] COUNT[-]"),
];

/// Words that are not a row, and what is wrong with them.
const NO_ROWS: [(&[&str], &str); 24] = [
    (&["run"], "DECK is missing"),
    (&["run", "D", "4000"], "SWITCHES is missing"),
    (
        &["run", "D", "4000", "A", "B"],
        "`B` is one argument too many",
    ),
    (&["assemble", "S"], "OUT is missing"),
    (&["assemble", "S", "O", "T"], "`T` is one argument too many"),
    (&["init"], "FILE is missing"),
    (&["init", "F", "G"], "`G` is one argument too many"),
    (&["apply", "F"], "SCRIPT is missing"),
    (&["apply", "F", "S", "T"], "`T` is one argument too many"),
    (&["export", "F", "ACME"], "NUMBER is missing"),
    (
        &["export", "F", "ACME", "9", "8"],
        "`8` is one argument too many",
    ),
    (&["migrate"], "FILE is missing"),
    (&["migrate", "F", "G"], "`G` is one argument too many"),
    (&["serve", "F", "80"], "COUNT is missing"),
    (
        &["serve", "F", "80", "1", "2"],
        "`2` is one argument too many",
    ),
    (&["help"], "`help` is no subcommand"),
    (
        &["Run", "D", "4000", "A"],
        "`Run` is no subcommand; did you mean `run`?",
    ),
    (&[""], "`` is no subcommand"),
    (&["-"], "`-` is no subcommand"),
    (&["-x"], "`-x` is no subcommand"),
    (&["--", "init", "F"], "`--` is no subcommand"),
    (
        &["init", "-x"],
        "`-x` begins with a hyphen; put `--` before the values if it is one",
    ),
    (
        &["run", "D", "-1", "A"],
        "`-1` begins with a hyphen; put `--` before the values if it is one",
    ),
    (
        &["run", "D", "4000", "-A"],
        "`-A` begins with a hyphen; put `--` before the values if it is one",
    ),
];

/// Returns these words as the arguments of a program.
fn arguments_of(alloc: Global, all: &[&str]) -> Result<Vec<String>, AllocError> {
    let mut arguments = Vec::new(alloc);
    for word in all {
        arguments.push(String::from_str(alloc, word)?)?;
    }
    Ok(arguments)
}

/// Returns the text of a subcommand and of the values that were found.
fn tell_values(
    alloc: Global,
    subcommand: Subcommand,
    found: &Found<'_>,
) -> Result<String, AllocError> {
    let mut told = format!(in alloc; "{subcommand:?}")?;
    for name in NAMES {
        if let Some(value) = found.value(name) {
            write!(told, " {name}[{value}]")?;
        }
    }
    Ok(told)
}

/// Returns the text of a row.
fn tell_row(alloc: Global, row: Words<'_>) -> Result<String, AllocError> {
    match row {
        Words::Standard => String::from_str(alloc, "Standard"),
        Words::Help(page) => format!(in alloc; "Help {page:?}"),
        Words::Version => String::from_str(alloc, "Version"),
        Words::Subcommand(subcommand, found) => tell_values(alloc, subcommand, &found),
    }
}

/// Returns the first line that the program prints for words that are not a row, and its status.
fn tell_fault(alloc: Global, fault: WordsFault<'_>) -> Result<(String, u8), Fail> {
    let mut told = Vec::new(alloc);
    let status = tell_mistake(&mut told, "bureau", fault)?;
    let text = str::from_utf8(&told).ok().ok_or("a text")?;
    let line = text.lines().next().ok_or("a line")?;
    Ok((String::from_str(alloc, line)?, status.code()))
}

#[test]
fn each_row_is_read(rt: HostRuntime) -> Result<(), Fail> {
    let alloc = rt.alloc();
    for (all, wanted) in ROWS {
        let arguments = arguments_of(alloc, all)?;
        let row = words(alloc, &arguments).ok().ok_or("a row")?;
        assert_eq!(rt; tell_row(alloc, row)?.as_str(), wanted);
    }
    Ok(())
}

#[test]
fn other_words_are_refused(rt: HostRuntime) -> Result<(), Fail> {
    let alloc = rt.alloc();
    for (all, wanted) in NO_ROWS {
        let arguments = arguments_of(alloc, all)?;
        let fault = words(alloc, &arguments).err().ok_or("no row")?;
        let (told, status) = tell_fault(alloc, fault)?;
        assert_eq!(rt; status, 2);
        assert_eq!(rt;
            told.as_str(),
            format!(in alloc; "bureau: {wanted}")?.as_str()
        );
    }
    Ok(())
}
