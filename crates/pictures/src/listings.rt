//! The pages of a listing.

ghost use Rattle.std.specs.Prelude.{◌≡◌, ◌++◌, IfOk, IfErr, OnOk};
ghost use Rattle.pictures.specs.{Faults.{IsFault, IsListing}, Forms.{listing_head, pages}};

use crate::faults::ListingFault;
use crate::finding::first_fault;
use crate::forms::push_listing_forms;
use crate::heads::push_page_head;
use crate::styles::{FORM_STYLE, LISTING_STYLE};
use std::alloc::{AllocError, Global};

/// Adds the head of the pages.
fn push_head(out: &mut Vec<u8>, title: &[u8]) -> Result<(), AllocError>
    ensures { OnOk result (out.new.items ≡ out.old.items ++ listing_head title.now) }
{
    push_page_head(out, title)?;
    out.extend_from_slice(b"<style>")?;
    out.extend_from_slice(LISTING_STYLE)?;
    out.extend_from_slice(FORM_STYLE)?;
    out.extend_from_slice(b"</style>\n")
}

/// Returns the pages of a listing, an HTML file that stands alone and has a title: a form behind
/// the other, with the lines of each.
///
/// Fails with the first byte of the text that no listing has, and if there is no memory.
pub fn listing_pages(alloc: Global, title: &[u8], listing: &[u8]) -> Result<Vec<u8>, ListingFault>
    ensures pages { IfOk result (λ page. page.items ≡ pages title.now listing.now) }
    ensures taken { IfOk result (λ _. IsListing listing.now) }
    ensures fault { IfErr result (λ fault. IsFault listing.now fault) }
{
    if let Some(fault) = first_fault(listing) {
        return Err(fault);
    }
    let mut out = Vec::new(alloc);
    push_head(&mut out, title)?;
    push_listing_forms(&mut out, listing)?;
    Ok(out)
}
