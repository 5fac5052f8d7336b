//! The table of mnemonics.

ghost use Rattle.std.specs.Prelude.{◌≡◌};
ghost use Rattle.autocoder_statements.specs.Mnemonics.{mnemonics};

use crate::modifiers::Modifiers;
use crate::operand_forms::{OperandForm, OperandForms};
use crate::operand_kinds::OperandKind;
use crate::operations::LONGEST_OPERATION;

/// A mnemonic: its name with blanks after it, the glyph of its operation, that of its last
/// character if it is fixed, and the forms of its operand field.
pub type MnemonicRow = ([u8; LONGEST_OPERATION], (u8, Option<u8>, OperandForms));

/// Two fields.
const FIELDS: OperandForm = OperandForm::Two(OperandKind::Field, OperandKind::Field);

/// A field.
const FIELD: OperandForm = OperandForm::One(OperandKind::Field);

/// A branch address.
const PLACE: OperandForm = OperandForm::One(OperandKind::Branch);

/// An empty field.
const NONE: OperandForms = OperandForms {
    form: OperandForm::Empty,
    other: None,
    third: None,
};

/// A branch address.
const BRANCH: OperandForms = OperandForms {
    form: PLACE,
    ..NONE
};

/// An empty field, or a branch address.
const NONE_OR_BRANCH: OperandForms = OperandForms {
    other: Some(PLACE),
    ..NONE
};

/// An empty field, or two fields.
const NONE_OR_TWO: OperandForms = OperandForms {
    other: Some(FIELDS),
    ..NONE
};

/// An empty field, a field, or two fields.
const NONE_ONE_OR_TWO: OperandForms = OperandForms {
    other: Some(FIELD),
    third: Some(FIELDS),
    ..NONE
};

/// A field, or two fields.
const ONE_OR_TWO: OperandForms = OperandForms {
    form: FIELD,
    other: Some(FIELDS),
    ..NONE
};

/// A field.
const ONE: OperandForms = OperandForms {
    form: FIELD,
    ..NONE
};

/// Two fields.
const TWO: OperandForms = OperandForms {
    form: FIELDS,
    ..NONE
};

/// An empty field, a field, or a branch address and a field.
const CLEAR: OperandForms = OperandForms {
    other: Some(FIELD),
    third: Some(OperandForm::Two(OperandKind::Branch, OperandKind::Field)),
    ..NONE
};

/// A branch address and a sense switch.
const SWITCH: OperandForms = OperandForms {
    form: OperandForm::OneAndModifier(OperandKind::Branch, Modifiers::Switches),
    ..NONE
};

/// A branch address, a field and a character.
const CHARACTER: OperandForms = OperandForms {
    form: OperandForm::TwoAndModifier(OperandKind::Branch, OperandKind::Field, Modifiers::Any),
    ..NONE
};

/// A branch address, a field and a test of it.
const ZONE: OperandForms = OperandForms {
    form: OperandForm::TwoAndModifier(
        OperandKind::Branch,
        OperandKind::Field,
        Modifiers::ZonesAndMarks,
    ),
    ..NONE
};

/// A branch address and a field.
const MARK: OperandForms = OperandForms {
    form: OperandForm::Two(OperandKind::Branch, OperandKind::Field),
    ..NONE
};

/// An order to the carriage.
const CARRIAGE: OperandForms = OperandForms {
    form: OperandForm::Modifier(Modifiers::Carriage),
    ..NONE
};

/// A pocket of the punch.
const POCKET: OperandForms = OperandForms {
    form: OperandForm::Modifier(Modifiers::Pockets),
    ..NONE
};

/// The mnemonics.
const MNEMONICS: [MnemonicRow; 40] = [
    (*b"A    ", (b'A', None, NONE_ONE_OR_TWO)),
    (*b"S    ", (b'S', None, NONE_ONE_OR_TWO)),
    (*b"ZA   ", (b'?', None, NONE_ONE_OR_TWO)),
    (*b"ZS   ", (b'!', None, NONE_ONE_OR_TWO)),
    (*b"MCW  ", (b'M', None, NONE_OR_TWO)),
    (*b"LCA  ", (b'L', None, NONE_OR_TWO)),
    (*b"MN   ", (b'D', None, NONE_OR_TWO)),
    (*b"MZ   ", (b'Y', None, NONE_OR_TWO)),
    (*b"MCS  ", (b'Z', None, NONE_OR_TWO)),
    (*b"MCE  ", (b'E', None, NONE_OR_TWO)),
    (*b"C    ", (b'C', None, NONE_OR_TWO)),
    (*b"MA   ", (b'#', None, TWO)),
    (*b"SW   ", (b',', None, ONE_OR_TWO)),
    (*b"CW   ", (b')', None, ONE_OR_TWO)),
    (*b"CS   ", (b'/', None, CLEAR)),
    (*b"B    ", (b'B', None, BRANCH)),
    (*b"BLC  ", (b'B', Some(b'A'), BRANCH)),
    (*b"BCV  ", (b'B', Some(b'@'), BRANCH)),
    (*b"BU   ", (b'B', Some(b'/'), BRANCH)),
    (*b"BE   ", (b'B', Some(b'S'), BRANCH)),
    (*b"BL   ", (b'B', Some(b'T'), BRANCH)),
    (*b"BH   ", (b'B', Some(b'U'), BRANCH)),
    (*b"BAV  ", (b'B', Some(b'Z'), BRANCH)),
    (*b"BSS  ", (b'B', None, SWITCH)),
    (*b"BCE  ", (b'B', None, CHARACTER)),
    (*b"BWZ  ", (b'V', None, ZONE)),
    (*b"BW   ", (b'V', Some(b'1'), MARK)),
    (*b"R    ", (b'1', None, NONE_OR_BRANCH)),
    (*b"W    ", (b'2', None, NONE_OR_BRANCH)),
    (*b"WR   ", (b'3', None, NONE_OR_BRANCH)),
    (*b"P    ", (b'4', None, NONE_OR_BRANCH)),
    (*b"RP   ", (b'5', None, NONE_OR_BRANCH)),
    (*b"WP   ", (b'6', None, NONE_OR_BRANCH)),
    (*b"WRP  ", (b'7', None, NONE_OR_BRANCH)),
    (*b"CC   ", (b'F', None, CARRIAGE)),
    (*b"SS   ", (b'K', None, POCKET)),
    (*b"H    ", (b'.', None, NONE_OR_BRANCH)),
    (*b"SBR  ", (b'H', None, ONE)),
    (*b"SAR  ", (b'Q', None, ONE)),
    (*b"NOP  ", (b'N', None, NONE)),
];

/// Returns the table of mnemonics. Each name stands in it once.
pub fn mnemonic_rows() -> &'static [MnemonicRow]
    ensures { result.now ≡ mnemonics }
{
    &MNEMONICS
}
