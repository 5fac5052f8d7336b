//! The table of all paths.

ghost use Rattle.std.specs.Prelude.{◌≡◌};
ghost use Rattle.http_messages.specs.Paths.{paths, routed};

use crate::paths::router;
use crate::routes::Path;
use matchit::Router;
use std::alloc::{AllocError, Global};

/// The paths of the counter, and what each asks for.
#[derive(Drop)]
pub struct Routes {
    pub(crate) router: Router<Path>,
    ghost paths: { router ≡ routed paths },
}

impl Routes {
    /// Makes the table of all paths. Fails only if there is no memory.
    pub fn new(alloc: Global) -> Result<Routes, AllocError> {
        let router = router(alloc)?;
        Ok(Routes { router })
    }
}
