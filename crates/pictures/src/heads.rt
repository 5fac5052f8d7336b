//! The head of a page.

ghost use Rattle.std.specs.Prelude.{◌≡◌, ◌++◌, OnOk};
ghost use Rattle.pictures.specs.Heads.{page_head, page_heading, title_byte, titled};

use crate::escapes::push_escape;
use std::alloc::AllocError;

/// What stands before the title of a page.
const OPENING: &[u8] = b"<!DOCTYPE html><html lang=en><meta charset=utf-8>\
    <meta name=viewport content=\"width=device-width,initial-scale=1\"><title>";

/// Adds a byte of a title as it stands in a page.
#[tactic(auto, unfolding(crate::specs::Heads::title_byte))]
fn push_title_byte(out: &mut Vec<u8>, byte: u8) -> Result<(), AllocError>
    ensures { OnOk result (out.new.items ≡ out.old.items ++ title_byte byte) }
{
    if byte == b'\n' {
        return Ok(out.push(b' ')?);
    }
    push_escape(out, byte)
}

/// Adds a title as it stands in a page, on one line.
fn push_title(out: &mut Vec<u8>, title: &[u8]) -> Result<(), AllocError>
    ensures { OnOk result (out.new.items ≡ out.old.items ++ titled title.now) }
{
    for byte in title {
        push_title_byte(out, *byte)?;
    }
    Ok(())
}

/// Adds the head of a page, up to its style. The page is laid out as wide as the screen is.
pub fn push_page_head(out: &mut Vec<u8>, title: &[u8]) -> Result<(), AllocError>
    ensures { OnOk result (out.new.items ≡ out.old.items ++ page_head title.now) }
{
    out.extend_from_slice(OPENING)?;
    push_title(out, title)?;
    out.extend_from_slice(b"</title>")
}

/// Adds the title as the heading of a page.
pub fn push_page_heading(out: &mut Vec<u8>, title: &[u8]) -> Result<(), AllocError>
    ensures { OnOk result (out.new.items ≡ out.old.items ++ page_heading title.now) }
{
    out.extend_from_slice(b"<h1>")?;
    push_title(out, title)?;
    out.extend_from_slice(b"</h1>\n")
}
