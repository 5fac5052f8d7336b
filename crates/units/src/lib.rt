//! The units that are connected to the storage: a card reader, a card punch, a printer with its
//! carriage, and the sense switches; and the listing of printed lines.
//!
//! The crate uses `bcd`, `cards` and `core_store`, and is generic over `Core`. Its contract for the
//! layers above: what a unit does is a definition on storage and unit (`specs/Units.antt`,
//! `specs/Carriages.antt`), or the first check that applies, and then nothing is changed. `operate`
//! does the work of several units in one operation. Memory is taken for a punched card, for a
//! printed line, by `render` and by a `ListingWriter`; if there is none, nothing is changed. Units in
//! range stay in range (`specs/Ranges.antt`). Cards and lines that were made before and are kept
//! elsewhere are only counted. `choose_pocket` chooses the pocket of the next card
//! (`specs/Pockets.antt`), unless the machine's profile has no stacker selection.
//!
//! Laws over the definitions: an operation keeps the deck, the switches, the profile and those
//! counts, and the cards and lines that it found are the first of those that it leaves
//! ([`operating_only_adds`]); printed lines in range rise by form and line
//! ([`lines_in_range_rise`]).
#![tactic(auto)]

mod areas;
mod carriage;
mod devices;
mod fault;
mod laws;
mod listing;
mod listing_writer;
mod operation;
mod pockets;
mod printer;
mod profiles;
mod punch;
mod ranges;
mod reader;
mod switches;
mod units;

pub use carriage::{
    Carriage, CarriageOrder, LAST_FORM, LINE_OF_CHANNEL_12, LINES_OF_FORM, Motion, move_carriage,
};
pub use devices::Devices;
pub use fault::Fault;
pub use laws::{lines_in_range_rise, operating_only_adds, operating_stays_in_range};
pub use listing::render;
pub use listing_writer::ListingWriter;
pub use operation::operate;
pub use pockets::Pocket;
pub use printer::{LINE_LENGTH, Line, MOST_LINES, Printer, print_line};
pub use profiles::Profile;
pub use punch::{MOST_CARDS, Punch, Punched, choose_pocket, punch_card};
pub use reader::{Hopper, put_card};
pub use switches::Switches;
pub use units::{Counts, Units};
