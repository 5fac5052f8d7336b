//! Worked cards: what each says. Those with faults are in `cases/assemblies`, which the program
//! assembles.

use crate::coding_sheets::{columns_of, push_glyphs};
use addresses::IndexLocation;
use autocoder_statements::{
    Adjustment, Base, Constant, Expression, Instruction, Name, Operand, Statement, read,
};
use bcd::Code;
use cards::{COLUMNS, Card};
use std::alloc::Global;
use std::test::Fail;

/// Adds the characters of a name.
fn push_name(text: &mut String, name: &Name) -> Result<(), Fail> {
    for code in &name.characters {
        let glyph = code.glyph();
        if glyph != b' ' {
            text.push(glyph as char)?;
        }
    }
    Ok(())
}

/// Adds a label, if there is one.
fn push_label(text: &mut String, label: Option<Name>) -> Result<(), Fail> {
    let Some(name) = label else {
        return Ok(());
    };
    push_name(text, &name)?;
    text.push_str(": ")?;
    Ok(())
}

/// Adds an expression as written on a card.
fn push_expression(text: &mut String, expression: &Expression) -> Result<(), Fail> {
    match expression.base {
        Base::Number(number) => write!(text, "{number}")?,
        Base::Name(name) => push_name(text, &name)?,
    }
    match expression.adjustment {
        Adjustment::Nothing => Ok(()),
        Adjustment::Plus(more) => Ok(write!(text, "&{more}")?),
        Adjustment::Minus(less) => Ok(write!(text, "-{less}")?),
    }
}

/// An index location as written on a card.
fn spelled_index(index: Option<IndexLocation>) -> &'static str {
    match index {
        None => "",
        Some(IndexLocation::First) => "&X1",
        Some(IndexLocation::Second) => "&X2",
        Some(IndexLocation::Third) => "&X3",
    }
}

/// Adds a blank and an operand as written on a card, if there is one; a literal by its characters.
fn push_operand(text: &mut String, operand: &Option<Operand>) -> Result<(), Fail> {
    match operand {
        None => Ok(()),
        Some(Operand::Address(address)) => {
            text.push(' ')?;
            push_expression(text, &address.expression)?;
            Ok(text.push_str(spelled_index(address.index))?)
        }
        Some(Operand::Literal(literal)) => {
            text.push_str(" @")?;
            push_glyphs(text, literal.characters())?;
            Ok(text.push('@')?)
        }
    }
}

/// Adds the last character of an instruction in brackets, if there is one.
fn push_modifier(text: &mut String, modifier: Option<Code>) -> Result<(), Fail> {
    let Some(code) = modifier else {
        return Ok(());
    };
    text.push_str(" (")?;
    text.push(code.glyph() as char)?;
    Ok(text.push(')')?)
}

/// Adds an instruction: its operation, its operands, its last character and its length.
fn push_instruction(text: &mut String, instruction: &Instruction) -> Result<(), Fail> {
    text.push(instruction.operation.glyph() as char)?;
    push_operand(text, &instruction.first)?;
    push_operand(text, &instruction.second)?;
    push_modifier(text, instruction.modifier)?;
    let length = instruction.length();
    Ok(write!(text, ", {length} long")?)
}

/// Adds a constant: whether it has a word mark, its characters or its blanks, and its length.
fn push_constant(text: &mut String, marked: bool, constant: &Constant) -> Result<(), Fail> {
    if marked {
        text.push_str("marked ")?;
    }
    match constant {
        Constant::Characters(characters) => push_glyphs(text, characters.characters())?,
        Constant::Blanks(count) => write!(text, "{count} blanks")?,
    }
    let length = constant.length();
    Ok(write!(text, ", {length} long")?)
}

/// Adds the end of a source: whether it has a label, and the start of the program.
fn push_end(text: &mut String, start: Option<Expression>, labelled: bool) -> Result<(), Fail> {
    if labelled {
        text.push_str("labelled ")?;
    }
    text.push_str("end")?;
    let Some(start) = start else {
        return Ok(());
    };
    text.push(' ')?;
    push_expression(text, &start)
}

/// Adds a statement.
fn push_statement(text: &mut String, statement: &Statement) -> Result<(), Fail> {
    match statement {
        Statement::Comment => Ok(text.push_str("comment")?),
        Statement::Job => Ok(text.push_str("job")?),
        Statement::Control(size) => Ok(write!(text, "size {}", size.positions())?),
        Statement::Origin(expression) => {
            text.push_str("origin ")?;
            push_expression(text, expression)
        }
        Statement::Equate { label, expression } => {
            push_label(text, Some(*label))?;
            text.push_str("equals ")?;
            push_expression(text, expression)
        }
        Statement::Constant {
            label,
            marked,
            constant,
        } => {
            push_label(text, *label)?;
            push_constant(text, *marked, constant)
        }
        Statement::Area { label, positions } => {
            push_label(text, *label)?;
            Ok(write!(text, "{positions} positions")?)
        }
        Statement::End { start, labelled } => push_end(text, *start, *labelled),
        Statement::Instruction { label, instruction } => {
            push_label(text, *label)?;
            push_instruction(text, instruction)
        }
    }
}

/// The statement of a line's card, in words.
fn statement_text(alloc: Global, line: &str) -> Result<String, Fail> {
    let columns: [Code; COLUMNS] = columns_of(line)?;
    let card = Card(columns);
    let mut text = String::new(alloc);
    let Ok(statement) = read(&card) else {
        return Err(Fail::from("a fault"));
    };
    push_statement(&mut text, &statement)?;
    Ok(text)
}

/// The first line of a sheet whose card has another statement than the line has before the card, or
/// an empty text if there is none.
fn wrong_statement(alloc: Global, sheet: &'static str) -> Result<&'static str, Fail> {
    for line in sheet.lines() {
        let (wanted, card) = line.split_once('|').ok_or("what it says")?;
        if statement_text(alloc, card)?.as_str() != wanted {
            return Ok(line);
        }
    }
    Ok("")
}

/// Labels of instructions, constants, areas and equations.
const LABELS_THAT_ARE_READ: &str = "\
READ: 1, 1 long|READ|R||
B2: 5, 1 long|B2|DC|5|
B2: 5 positions|B2|DS|5|
B2: equals 5|B2|EQU|5|
B2: ., 1 long|B2|H||
";

/// Numbers, names and index locations, literals and their signs, and last characters.
const INSTRUCTIONS: &str = "\
M 80 280, 7 long||MCW|080,280|
1 5, 4 long||R|5|
B DONE (A), 5 long||BLC|DONE|
B READ 280 (,), 8 long||BCE|READ,280,,|
B READ 280 (@), 8 long||BCE|READ,280,@|
B READ @A,B@ (@), 8 long||BCE|READ,@A,B@,@|
A @1B@, 4 long||A|&12|
A @1K@, 4 long||A|-12|
A @?@, 4 long||A|&0|
A @!@, 4 long||A|-0|
A @1B@, 4 long||A|@1B@|
A TAB&3&X2 @AB@, 7 long||A|TAB&3&X2,@AB@|
/ A B, 7 long||CS|A,B|
K (4), 2 long||SS|4|
F (K), 2 long||CC|K|
";

/// Texts, numbers with and without a sign, and blanks.
const CONSTANTS: &str = "\
AB, 2 long||DC|@AB@|
marked 10, 2 long||DCW|10|
marked 1?, 2 long||DCW|&10|
N, 1 long||DC|-5|
marked 5 blanks, 5 long||DCW|#5|
ABC, 3 long||DC|@ABC@|
";

/// Orders with and without an expression.
const ORDERS: &str = "\
origin 500||ORG|500|
end 333||END|333|
labelled end 333|A|END|333|
labelled end|1A|END||
labelled end|A|END||
TAB: equals B2|TAB|EQU|B2|
TAB: equals 500-1|TAB|EQU|500-01|
job||JOB|ANY|
end||END||
size 1400||CTL|1|
size 2000||CTL|2|
size 4000||CTL|3|
size 8000||CTL|4|
size 12000||CTL|5|
size 16000||CTL|6|
size 16000||CTL|6  @|
10 positions||DS|10|
comment|* A B|XYZ|@|
";

#[test]
fn what_cards_say(rt: HostRuntime) -> Result<(), Fail> {
    let alloc = rt.alloc();
    for sheet in [LABELS_THAT_ARE_READ, INSTRUCTIONS, CONSTANTS, ORDERS] {
        assert_eq!(rt; wrong_statement(alloc, sheet)?, "");
    }
    Ok(())
}
