//! What is wrong with the lines of a text.

/// Why a line is no card.
#[derive(Clone, Copy)]
pub enum TextError {
    /// A character that no card has: its bytes, as far as four, filled up with zeros.
    NoCode([u8; 4]),
    /// A small letter, where these are not taken as capitals.
    SmallLetter,
    /// A tab, where there are no columns at which it goes on.
    Tab,
    /// A character past column 80: how many columns the line has, without the blanks at its end.
    PastTheCard(usize),
    /// The line of a card in a punch file: 240 hexadecimal digits.
    PunchLine,
    /// No character but blanks, where that is a fault.
    EmptyLine,
    /// A card more than the 2,000 of a deck.
    TooManyCards,
}

/// A fault of a text, with its place.
#[derive(Clone, Copy)]
pub struct TextFault {
    /// The line, from 1.
    pub line: usize,
    /// The column of the card, from 1.
    pub column: usize,
    /// What is wrong there.
    pub error: TextError,
}
