//! A punch file whose fifth column is a character, another one, or none.

use cards::{read_punched, write_text};
use std::alloc::Global;
use std::test::Fail;

/// Returns the text of the deck in a punch file of one card, or the fault of the file. The file
/// begins with these digits, and the columns after them are blank.
fn read(alloc: Global, digits: &str) -> Result<String, Fail> {
    let file = format!(in alloc; "{digits:0<240}\n")?;
    match read_punched(alloc, file.as_str().as_bytes()) {
        Ok(deck) => {
            let text = write_text(alloc, &deck)?;
            Ok(String::from_utf8(text).ok().ok_or("a text")?)
        }
        Err(fault) => {
            let (card, column) = (fault.card, fault.column);
            let number = fault.error.number();
            Ok(format!(in alloc; "card {card} column {column} fault {number}")?)
        }
    }
}

/// The punches of `HELLO`, and the same with another fifth column.
#[test]
fn punches_of_no_character_are_fault_32(rt: HostRuntime) -> Result<(), Fail> {
    let alloc = rt.alloc();
    for (digits, wanted) in [("802810440440408", "HELLO"), ("80281044044040A", "HELL;")] {
        let text = format!(in alloc; "{wanted:80}\n")?;
        assert_eq!(rt; read(alloc, digits)?.as_str(), text.as_str());
    }
    for digits in ["80281044044040C", "802810440440FFF", "80281044044040a"] {
        let told = read(alloc, digits)?;
        assert_eq!(rt; told.as_str(), "card 1 column 5 fault 32", "{digits}");
    }
    Ok(())
}
