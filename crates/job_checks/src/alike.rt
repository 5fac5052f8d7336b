//! Lists of parts that are compared.

ghost use Rattle.std.specs.{Prelude.{◌≡◌, ◌↔◌, IfSome, IsNone, IsTrue}, List.{AllByRecursion}};
ghost use Rattle.job_checks.specs.Schemas.{IsOf};

/// A part of a schema that can be compared with another.
pub(crate) trait Part {
    // The part has nothing that cannot be compared.
    ghost Is: { Self → Type 0 };

    /// Whether a part is the same as one that can be compared.
    fn is_like(&self, other: &Self) -> bool
        ensures { IsTrue result ↔ ((self.now ≡ other.now) × Is other.now) };
}

/// How one list of parts differs from another.
#[derive(Drop)]
pub(crate) enum Unlike<'a, T> {
    /// It has this part, and the other list has not, or not there.
    Has(&'a T),
    /// It misses this part of the other list.
    Misses(&'a T),
}

/// How a list of parts first differs from one of parts that can be compared, if it does.
pub(crate) fn first_unlike<'a, T: Part>(parts: &'a [T], others: &'a [T]) -> Option<Unlike<'a, T>>
    ensures none { IsNone result ↔ ((parts.now ≡ others.now) × AllByRecursion T.Is others.now) }
    ensures told { IfSome result (IsOf parts.now others.now) }
{
    for at in 0..parts.len() {
        let part = &parts[at];
        let Some(other) = others.get(at) else {
            return Some(Unlike::Has(part));
        };
        if !part.is_like(other) {
            return Some(Unlike::Has(part));
        }
    }
    match others.get(parts.len()) {
        Some(other) => Some(Unlike::Misses(other)),
        None => None,
    }
}
