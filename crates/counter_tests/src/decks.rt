//! Texts of decks.

use std::alloc::{AllocError, Global};

/// A program that reads two cards into the print area and prints each, and halts; and two data
/// cards.
pub(crate) const TWO_LINES: &str = "\
,008015,022029,036040,047054,061068,072)008015)022029)036036N0000001040
/332/,0011M0802802B360A                L023355,337338,342343,3503511040
B342.                                  L006361,360361N000000N0000001040
                                       /333080
HELLO
WORLD";

/// The source of that program, and two data cards after it.
pub(crate) const TWO_LINES_SOURCE: &str = "               CS   332
               CS
               SW   001
     READ      R
               MCW  080,280
               W
               BLC  DONE
               B    READ
     DONE      H
               END
HELLO
WORLD";

/// The text of a deck whose cards are these lines, each without its trailing blanks.
pub(crate) fn text_of(alloc: Global, lines: &str) -> Result<Vec<u8>, AllocError> {
    let mut text = Vec::new(alloc);
    for line in lines.lines() {
        text.extend_from_slice(line.as_bytes())?;
        for _ in line.len()..80 {
            text.push(b' ')?;
        }
        text.push(b'\n')?;
    }
    Ok(text)
}
