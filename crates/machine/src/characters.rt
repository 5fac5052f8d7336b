//! The characters that name the operations, by their numbers.

/// `A`.
pub const ADD: u8 = 49;
/// `S`.
pub const SUBTRACT: u8 = 18;
/// `?`.
pub const ZERO_ADD: u8 = 58;
/// `!`.
pub const ZERO_SUBTRACT: u8 = 42;
/// `C`.
pub const COMPARE: u8 = 51;
/// `#`.
pub const MODIFY_ADDRESS: u8 = 11;
/// `M`.
pub const MOVE: u8 = 36;
/// `L`.
pub const LOAD: u8 = 35;
/// `D`.
pub const MOVE_DIGIT: u8 = 52;
/// `Y`.
pub const MOVE_ZONE: u8 = 24;
/// `Z`.
pub const SUPPRESS: u8 = 25;
/// `E`.
pub const EDIT: u8 = 53;
/// `,`.
pub const SET_MARK: u8 = 27;
/// `)`.
pub const CLEAR_MARK: u8 = 60;
/// `/`.
pub const CLEAR_STORAGE: u8 = 17;
/// `B`.
pub const BRANCH: u8 = 50;
/// `V`.
pub const BRANCH_ON_MARK_OR_ZONE: u8 = 21;
/// `1`, the first of the characters that name units.
pub const FIRST_OF_UNITS: u8 = 1;
/// `7`, the last of the characters that name units.
pub const LAST_OF_UNITS: u8 = 7;
/// `F`.
pub const MOVE_CARRIAGE: u8 = 54;
/// `K`.
pub const CHOOSE_POCKET: u8 = 34;
/// `Q`.
pub const STORE_A: u8 = 40;
/// `H`.
pub const STORE_B: u8 = 56;
/// `.`.
pub const HALT: u8 = 59;
/// `N`.
pub const NO_OPERATION: u8 = 37;
