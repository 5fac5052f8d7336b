//! What is written if a deck was assembled, and what is printed if it was not.

ghost use Rattle.std.specs.Prelude.{◌≡◌, IfOk};
ghost use Rattle.local_runs.specs.Endings.{IsHindrance, IsShown, ending_by, made_by, assembled, faulty};

use crate::source_faults::put_fault_lines;
use autocoder::Faults;
use autocoder_layout::CardFault;
use command_line::{Fault, Status, put_out, tell_fault};
use std::io;
use std::io::Write;

/// The result of assembling a deck.
#[derive(Drop)]
pub struct Assembled {
    /// How the program ends.
    pub status: Status,
    /// The bytes to be written to OUT, or `None` if OUT is to stay as it is.
    pub out: Option<Vec<u8>>,
}

/// The listing of a deck's source, and the text of the deck that runs its program.
#[derive(Drop)]
pub struct Product {
    pub listing: Vec<u8>,
    pub out: Vec<u8>,
}

/// Why a deck was not assembled.
#[derive(Drop)]
pub enum Hindrance {
    /// Its source has faults, or there was no memory to assemble it.
    Source(Faults),
    /// Any other fault.
    Fault(Fault),
}

/// Prints a fault instead of everything else.
pub fn hinder<E: Write>(errors: &mut E, fault: Fault) -> io::Result<Assembled>
    ensures { IfOk result (λ answer.
        IsHindrance fault answer (E.contents errors.old) (E.contents errors.new)) }
{
    let status = tell_fault(errors, fault)?;
    Ok(Assembled { status, out: None })
}

/// Writes the listing, and returns the bytes for OUT.
pub fn show_product<W: Write, E: Write>(
    product: Product,
    output: &mut W,
    errors: &mut E,
) -> io::Result<Assembled>
    ensures { IfOk result (λ answer. IsShown (assembled (made_by product)) answer
        (W.contents output.old) (W.contents output.new)
        (E.contents errors.old) (E.contents errors.new)) }
{
    if put_out(output, &product.listing).is_err() {
        return hinder(errors, Fault::Device);
    }
    Ok(Assembled {
        status: Status::Done,
        out: Some(product.out),
    })
}

/// Writes the faults of a source.
fn show_faults<W: Write, E: Write>(
    faults: &[CardFault],
    output: &mut W,
    errors: &mut E,
) -> io::Result<Assembled>
    ensures { IfOk result (λ answer. IsShown (faulty faults.now) answer
        (W.contents output.old) (W.contents output.new)
        (E.contents errors.old) (E.contents errors.new)) }
{
    if put_fault_lines(output, faults).is_err() {
        return hinder(errors, Fault::Device);
    }
    Ok(Assembled {
        status: Status::NotDone,
        out: None,
    })
}

/// Writes or prints why a deck was not assembled.
pub fn show_hindrance<W: Write, E: Write>(
    hindrance: Hindrance,
    output: &mut W,
    errors: &mut E,
) -> io::Result<Assembled>
    ensures { IfOk result (λ answer. IsShown (ending_by hindrance) answer
        (W.contents output.old) (W.contents output.new)
        (E.contents errors.old) (E.contents errors.new)) }
{
    match hindrance {
        Hindrance::Source(faults) => show_faults(faults.list(), output, errors),
        Hindrance::Fault(fault) => hinder(errors, fault),
    }
}
