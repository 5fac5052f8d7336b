//! Moves of fields: move, load, the numeric part and the zone alone, suppress, edit, word marks,
//! and the clearing of storage.
//!
//! Each operation works at registers A and B. The contract for the layers above: the effect on
//! whole fields by the definitions of `specs/`, one for each operation; or the first check that
//! applies, and then nothing is changed. Everything is generic over `Core`, and no call takes
//! memory.
#![tactic(auto)]

mod blanking;
mod characters;
mod control;
mod editing;
mod filling;
mod lanes;
mod loading;
mod marks;
mod moving;
mod near;
mod parts;
mod suppressing;

pub use characters::parts_are_read;
pub use editing::{edit, edit_clear, edited_shows_the_data, shares};
pub use filling::data_count;
pub use loading::{load_at, load_clear, load_field, loaded_is_by_position};
pub use marks::{clear_mark, clear_storage, put_mark, set_mark};
pub use moving::{move_at, move_clear, move_field, move_length, moved_is_by_position};
pub use parts::{digit, zone};
pub use suppressing::{suppress, suppress_clear};
