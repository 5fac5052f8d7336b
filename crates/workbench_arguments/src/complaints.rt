//! What is said of the values of arguments that are none.

/// Of `--tabs`, which is no list of columns.
pub(crate) const NO_TABS: &str = "--tabs must have rising columns from 2 to 80, as 6,16,21,41";

/// Of `--signs`, which names no table.
pub(crate) const NO_SIGNS: &str = "--signs must be simh, or glyphs";

/// Of `--keep`, which is no column.
pub(crate) const NO_COLUMN: &str = "--keep must be a column from 1 to 80";

/// Of `--empty`, which is none of three.
pub(crate) const NO_EMPTY_LINE: &str = "--empty must be card, drop or fault";

/// Of FROM, which names no form.
pub(crate) const NO_FORM_READ: &str = "FROM must be text, punch, simh or binary";

/// Of TO, which names no form.
pub(crate) const NO_FORM_WRITTEN: &str = "TO must be text, punch, simh or binary";

/// Of `--form`, which names no form.
pub(crate) const NO_FORM: &str = "--form must be text, punch, simh or binary";

/// Of `--width`, which is none of two.
pub(crate) const NO_WIDTH: &str = "--width must be 80 or 120";

/// Of FIRST, which is no number.
pub(crate) const NO_FIRST_NUMBER: &str =
    "FIRST must be a number of 1 to 9 digits without a zero in front";

/// Of LAST, which is no number.
pub(crate) const NO_LAST_NUMBER: &str =
    "LAST must be a number of 1 to 9 digits without a zero in front";

/// Of STEP, which is no number.
pub(crate) const NO_STEP: &str = "STEP must be a number of 1 to 9 digits without a zero in front";

/// Of N, which is no number.
pub(crate) const NO_CARD: &str = "N must be a number of 1 to 9 digits without a zero in front";

/// Of `--from`, which is no number.
pub(crate) const NO_FROM: &str = "--from must be a number of 1 to 9 digits without a zero in front";

/// Of `--last`, which is no number.
pub(crate) const NO_LAST: &str = "--last must be a number of 1 to 9 digits without a zero in front";

/// Of `--count`, which is no number.
pub(crate) const NO_COUNT: &str =
    "--count must be 0, or a number of 1 to 9 digits without a zero in front";

/// Of `--after`, which is no number.
pub(crate) const NO_AFTER: &str =
    "--after must be 0, or a number of 1 to 9 digits without a zero in front";

/// Of `--first`, which is no number.
pub(crate) const NO_FIRST: &str =
    "--first must be 0, or a number of 1 to 9 digits without a zero in front";
