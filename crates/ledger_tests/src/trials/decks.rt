//! Decks of cards, whose lines have all their columns.

use std::alloc::Global;
use std::test::Fail;

/// A program that prints each data card until the last one, and two data cards.
const TWO_LINES: &str = "\
,008015,022029,036040,047054,061068,072)008015)022029)036036N0000001040         
/332/,0011M0802802B360A                L023355,337338,342343,3503511040         
B342.                                  L006361,360361N000000N0000001040         
                                       /333080                                  
HELLO                                                                           
WORLD                                                                           ";

/// A program that punches three blank cards.
const THREE_CARDS: &str = "\
,008015,022029,030031,032033444.                                                ";

/// A program that punches a blank card into pocket 4, one into the normal pocket, and one into 8.
const THREE_POCKETS: &str = "\
,008015,022029,036043,045046,047049,050051K444K84.                              ";

/// A program that prints a line, punches a card and halts; started again, it punches into pocket 4.
const CARDS_APART: &str = "\
,008015,022029,036037,038039,04104524.K4B036                                    ";

/// The source of a program that copies a card, and a card.
const SOURCE: &str = "\
\x20              SW   001                                                         
               R                                                                
               MCW  080,180                                                     
               P                                                                
               H                                                                
               END                                                              
HELLO                                                                           ";

/// A source without an END card.
const ENDLESS_SOURCE: &str = "\
\x20              H                                                                ";

/// The cards of the deck with this name, or the line itself where it names none.
fn cards_named(line: &str) -> &str {
    match line {
        "two lines" => TWO_LINES,
        "three cards" => THREE_CARDS,
        "three pockets" => THREE_POCKETS,
        "cards apart" => CARDS_APART,
        "source" => SOURCE,
        "source without END" => ENDLESS_SOURCE,
        _ => line,
    }
}

/// The script of these lines, which `~` parts. A deck's name stands for its cards.
pub(crate) fn script_of(alloc: Global, lines: &str) -> Result<String, Fail> {
    let mut script = String::new(alloc);
    for line in lines.split_terminator('~') {
        script.push_str(cards_named(line))?;
        script.push_str("\n")?;
    }
    Ok(script)
}
