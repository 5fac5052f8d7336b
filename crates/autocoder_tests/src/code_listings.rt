//! Worked listings that show the assembled code, word for word.

use crate::coding_sheets::{deck_of, text_of};
use autocoder::assemble;
use autocoder_listings::listing_with_code;
use std::alloc::Global;
use std::test::Fail;

/// The listing with code of a sheet's source.
fn listed(alloc: Global, sheet: &str) -> Result<String, Fail> {
    let deck = deck_of(alloc, sheet)?;
    let Ok(program) = assemble(alloc, &deck) else {
        return Err(Fail::from("a program"));
    };
    text_of(alloc, &listing_with_code(alloc, &deck, &program)?)
}

/// A constant of two rows, and a literal.
const LONG_CONSTANT: &str = "\
|SW|001|
READ|MCW|@NO.@,220|
|B|READ|
LONG|DCW|@ABCDEFGHIJKLMNOPQRSTUVWXYZABCDEFGHIJKLMN@|
|DS|10|
|END||
";

/// Its listing.
const LISTING_OF_LONG_CONSTANT: &str =
    "   1 00333                SW   001                                                              4 00333 ',001
   2 00337      READ      MCW  @NO.@,220                                                        7 00337 'M400220
   3 00344                B    READ                                                             4 00344 'B337
   4 00348      LONG      DCW  @ABCDEFGHIJKLMNOPQRSTUVWXYZABCDEFGHIJKLMN@                      40 00348 'ABCDEFGHIJKLMNOPQRST
                                                                                                  00368 UVWXYZABCDEFGHIJKLMN
   5                      DS   10
   6                      END                                                                   3 00398 'NO.
NAME   PLACE CARDS
READ   00337    3
LONG   00387
";

/// Marked blanks after instructions, blanks without marks, and names in every kind of address.
const BLANKS_AND_NAMES: &str = "\
A|EQU|5|
|ORG|500|
|H|A|
|DC|#2|
S|MCW|S,S&X1|
|END|A|
";

/// Their listing.
const LISTING_OF_BLANKS_AND_NAMES: &str = "   1            A         EQU  5
   2                      ORG  500
   3 00500                H    A                                                                5 00500 '.005'
   4 00505                DC   #2                                                               2 00505
   5 00507      S         MCW  S,S&X1                                                           8 00507 'M5075|7'
   6                      END  A
NAME   PLACE CARDS
A      00005    3    6
S      00507    5
";

/// Two literals, and no name.
const LITERALS: &str = "\
|MCW|@A@,@BC@|
|END||
";

/// Their listing.
const LISTING_OF_LITERALS: &str =
    "   1 00333                MCW  @A@,@BC@                                                         8 00333 'M341343'
   2                      END                                                                   3 00341 'A'BC
NAME   PLACE CARDS
";

#[test]
fn code_and_names_are_shown(rt: HostRuntime) -> Result<(), Fail> {
    for (sheet, wanted) in [
        (LONG_CONSTANT, LISTING_OF_LONG_CONSTANT),
        (BLANKS_AND_NAMES, LISTING_OF_BLANKS_AND_NAMES),
        (LITERALS, LISTING_OF_LITERALS),
    ] {
        assert_eq!(rt; listed(rt.alloc(), sheet)?.as_str(), wanted);
    }
    Ok(())
}
