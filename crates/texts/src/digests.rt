//! Digests as texts.

ghost use Rattle.std.specs.Prelude.{◌≡◌, ◌++◌, OnOk};
ghost use Rattle.texts.specs.Digests.{digest_of};

use sha2::{Digest, Sha256};
use std::alloc::{AllocError, Global};

/// Adds the SHA-256 of bytes (FIPS 180-4) in lower-case hexadecimal digits. Fails if there is no
/// memory.
pub fn push_digest(alloc: Global, out: &mut Vec<u8>, bytes: &[u8]) -> Result<(), AllocError>
    ensures { OnOk result (out.new.items ≡ out.old.items ++ digest_of bytes.now) }
{
    let digest = Sha256::digest(bytes);
    let digits = hex::encode(alloc, &digest)?;
    out.extend_from_slice(digits.as_bytes())
}
