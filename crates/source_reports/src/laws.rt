//! The laws of the report of a source.

ghost use Rattle.std.specs.Prelude.{◌≡◌, ◌-◌, ◌⊎◌, ◌||◌, true, List, ℕ, Option, Some, None, is_some, slice_get, slice_index_or};
ghost use Rattle.cards.specs.declared.decks.Card.{Card};
ghost use Rattle.autocoder_layout.specs.{
  declared.card_faults.CardFault.{CardFault},
  declared.faults.SourceFault.TheVariants.{UnknownName},
};
ghost use Rattle.autocoder_statements.specs.{
  Statements.{is_broken, label_field, operation_field, operation_of},
  declared.operations.Operation.{Operation},
  Mnemonics.{orders, mnemonics, entry, operands_in},
  declared.names.Name.{Name},
  declared.operand_forms.OperandForms.{OperandForms},
};
ghost use Rattle.autocoder_layout.specs.{Layout.{nothing}, declared.slots.Slot.{Slot}};
ghost use Rattle.autocoder.specs.{
  Programs.{IsFaultless, AreFaults, laid_for, layout_for},
  declared.faults.Faults.{Faults},
};
ghost use Rattle.autocoder_listings.specs.{Listing.{listing_in}, declared.widths.Width.{Width}};
ghost use Rattle.source_reports.specs.{
  Blocks.{line_at},
  Carets.{IsInField, IsStrayAt, IsUnknownTold, IsOnlyNear},
  Names.{near_name},
  declared.names.Known.{Known},
  Places.{broken_column, place_of},
  OperandCauses.{cause_of},
  OperandStops.{forms_stop},
  OperationNames.{near_operation},
  Reports.{text_for, Tells},
  ToldOperations.{IsOnlyNearName, AreFormsOfRow, IsCaretAtStop},
};

/// The law of reports: the report of a source without faults is its listing with code, and that of
/// a source for which the assembler returns faults tells these, each in a block, in their order,
/// whatever the width.
#[tactic(auto, using(crate::proofs::ReportLaw::faultless_listed, crate::proofs::ReportLaw::faults_told))]
pub fn reports_follow_the_assembler()
    ensures listed { (width : Width) (source : List Card) → IsFaultless source →
        text_for width source ≡ listing_in width source }
    ensures told { (source : List Card) (faults : Faults) → AreFaults source faults →
        Tells source faults }
{}

/// The law of carets: the caret under a card of a source stands in the field that the fault is
/// about: the label, the operation or the operands.
#[tactic(auto, using(crate::proofs::CaretLaw::caret_in_field))]
pub fn carets_stand_in_the_field_at_fault()
    ensures { (source : List Card) (f : CardFault) (card : Card) (column : ℕ) →
        slice_get source (f.card - 1) ≡ Some card →
        place_of (laid_for source) card (line_at (laid_for source) (f.card - 1)) f.fault
        ≡ Some column → IsInField f.fault column }
{}

/// The law of unknown names: of a card whose fault is a name that is not defined, the report tells
/// the name under whose first letter the caret stands, and none of the cards that count for this
/// card defines it: of `ORG` and `EQU` those before it, else all.
#[tactic(auto, using(crate::proofs::NameLaw::told_undefined))]
pub fn names_told_are_not_defined()
    ensures { (source : List Card) (k : ℕ) (card : Card) → slice_get source k ≡ Some card →
        (slice_index_or (layout_for source) k nothing).fault ≡ Some UnknownName →
        IsUnknownTold (laid_for source) k card (line_at (laid_for source) k) }
{}

/// The law of broken fields: where the label or the operation has a character behind a blank, the
/// caret stands under such a character, which has a blank before it in its field.
pub fn carets_stand_behind_a_blank()
    ensures { (card : Card) →
        (is_broken (label_field card) || is_broken (operation_field card)) ≡ true →
        IsStrayAt (label_field card) 6 (broken_column card)
        ⊎ IsStrayAt (operation_field card) 16 (broken_column card) }
{}

/// The law of names that are nearly the same: such a name is defined by the card that is told,
/// differs in one character, and no other card defines one that does.
#[tactic(auto, using(crate::proofs::NearLaw::near_is_only))]
pub fn near_names_are_the_only_ones()
    ensures { (wanted : Name) (slots : List Slot) (known : Known) →
        near_name wanted slots ≡ Some known → IsOnlyNear wanted slots known }
{}

/// The law of operations that are nearly the same: such a name is one of the table of operations,
/// what stands on the card nearly is it, and no other name of the table is one.
#[tactic(auto, using(crate::proofs::ToldLaw::near_name_is_only))]
pub fn near_operations_are_the_only_ones()
    ensures { (field name : List ℕ) → near_operation field ≡ Some name →
        IsOnlyNearName field name }
{}

/// The law of operands that are told: what a report tells as the operands of an instruction are the
/// forms of its row in the table of mnemonics.
#[tactic(auto, using(crate::proofs::ToldLaw::forms_are_of_row))]
pub fn operands_told_are_those_of_the_table()
    ensures { (word : List ℕ) (row : ℕ × Option ℕ × OperandForms) → entry orders word ≡ None →
        entry mnemonics word ≡ Some row → AreFormsOfRow word row }
{}

/// The law of carets under operands: such a caret stands at or before the first character behind
/// what can be read of the operand field by the card's operation.
#[tactic(auto, using(crate::proofs::ToldLaw::caret_at_stop))]
pub fn carets_stand_at_what_is_not_read()
    ensures { (card : Card) (known : Operation) → operation_of card ≡ Some known →
        IsCaretAtStop card known }
{}

/// The law of wrong operands: where an operand field has none of the forms of its mnemonic, the
/// report tells what is wrong with it.
#[tactic(auto, using(crate::proofs::FitLaw::told_where_wrong))]
pub fn wrong_operands_are_told()
    ensures { (forms : OperandForms) (field : List ℕ) → operands_in forms field ≡ None →
        is_some (cause_of (forms_stop forms field) field) ≡ true }
{}
