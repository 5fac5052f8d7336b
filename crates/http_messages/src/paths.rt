//! The paths, with matchit's router.

ghost use Rattle.std.specs.Prelude.{◌≡◌, true, map, option_map, IfOk, OnOk};
ghost use Rattle.matchit.specs.Seek.{first};
ghost use Rattle.http_messages.specs.Paths.{is_free, path_at, path_of, paths, routed, with_path};

use crate::routes::{Path, Route, Verb};
use http::Method;
use matchit::{InsertError, Router};
use office::Kind;
use std::alloc::{AllocError, Global};

/// Each path, by its text.
#[rattlefmt::skip]
const PATHS: [(&str, Path); 13] = [
    ("/c/{customer}/j/{number}/object/{size}/{switches}",
        Path { method: Method::PUT, route: Route::Submit(Kind::Object) }),
    ("/c/{customer}/j/{number}/autocoder/{size}/{switches}",
        Path { method: Method::PUT, route: Route::Submit(Kind::Autocoder) }),
    ("/c/{customer}/j/{number}/slice/{limit}",
        Path { method: Method::POST, route: Route::Job(Verb::Slice) }),
    ("/c/{customer}/j/{number}/start/{switches}",
        Path { method: Method::POST, route: Route::Job(Verb::Start) }),
    ("/c/{customer}/j/{number}/hold",
        Path { method: Method::POST, route: Route::Job(Verb::Hold) }),
    ("/c/{customer}/j/{number}/release",
        Path { method: Method::POST, route: Route::Job(Verb::Release) }),
    ("/c/{customer}/j/{number}/collect",
        Path { method: Method::POST, route: Route::Job(Verb::Collect) }),
    ("/c/{customer}/j/{number}", Path { method: Method::GET, route: Route::Job(Verb::Standing) }),
    ("/c/{customer}/j/{number}/cards", Path { method: Method::GET, route: Route::Job(Verb::Cards) }),
    ("/c/{customer}/j/{number}/cards/{pocket}",
        Path { method: Method::GET, route: Route::Job(Verb::Pocket) }),
    ("/c/{customer}/j/{number}/lines", Path { method: Method::GET, route: Route::Job(Verb::Lines) }),
    ("/c/{customer}/jobs", Path { method: Method::GET, route: Route::Jobs }),
    ("/queue", Path { method: Method::GET, route: Route::Queue }),
];

/// Adds a path that does not conflict with those before it. Fails only if there is no memory.
fn add(router: &mut Router<Path>, text: &str, path: Path) -> Result<(), AllocError>
    requires { is_free router.old text.now ≡ true }
    ensures { OnOk result (router.new ≡ with_path router.old (text.now, path)) }
{
    match router.insert(text, path) {
        Ok(()) => Ok(()),
        Err(InsertError::OutOfMemory) => Err(AllocError),
        Err(_) => unreachable!(),
    }
}

/// The router of a table of paths. Fails only if there is no memory.
fn router_of(alloc: Global, table: &[(&str, Path)]) -> Result<Router<Path>, AllocError>
    requires { map path_of table.now ≡ paths }
    ensures { IfOk result (λ router. router ≡ routed paths) }
{
    let mut router = Router::new(alloc);
    for entry in table {
        add(&mut router, entry.0, entry.1.clone()?)?;
    }
    Ok(router)
}

/// Returns the router of the counter's paths. Fails only if there is no memory.
pub fn router(alloc: Global) -> Result<Router<Path>, AllocError>
    ensures { IfOk result (λ router. router ≡ routed paths) }
{
    router_of(alloc, &PATHS)
}

/// The first of a router's paths that a target matches.
fn find_path<'a>(router: &'a Router<Path>, target: &str) -> Option<&'a Path>
    ensures { option_map (λ path. path.now) result
        ≡ option_map (λ row. row.value) (first router.entry.now target.now) }
{
    match router.at(target) {
        Ok(found) => Some(found.value),
        Err(_) => None,
    }
}

/// Returns the path of a target, if it has one. The router is the one that [`router`] returns.
#[tactic(auto, unfolding(crate::specs::Paths::path_at))]
pub fn path_at<'a>(router: &'a Router<Path>, target: &str) -> Option<&'a Path>
    requires { router.now ≡ routed paths }
    ensures { option_map (λ path. path.now) result ≡ path_at target.now }
{
    find_path(router, target)
}
