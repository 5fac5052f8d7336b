//! How far the arguments after a subcommand's name are read.

ghost use Rattle.std.specs.Prelude.{◌≡◌, IfErr, IfOk, option_map, true};
ghost use Rattle.command_line.specs.Misuses.{arguments_as, at_end, beginning, lacks_value, misuse_as, onward, place_as, step, with_any, with_awaited, with_option, with_value, wrong};

use crate::misuses::Misuse;
use crate::options::{awaited_by, near_option, next_value, option_in};
use crate::plain::is_plain_argument;
use crate::tables::Kind;

/// How far the arguments after a subcommand's name are read.
#[derive(Clone, Copy)]
pub(crate) struct Place {
    /// The arguments that may still come.
    to_come: &'static [(&'static str, Kind)],
    /// Whether the last value may come again.
    goes_on: bool,
    /// The option whose value is the next argument.
    awaited: Option<&'static str>,
    /// Whether `--` has come.
    is_behind: bool,
}

/// What is wrong where the value that comes next is missing, if it cannot be left out.
fn lacks_value<'a>(name: &'static str, kind: Kind) -> Misuse<'a>
    ensures { misuse_as result ≡ lacks_value name.now kind }
{
    if kind.is_needed() {
        Misuse::Missing(name)
    } else {
        Misuse::OfOptions
    }
}

impl Place {
    /// The place before the arguments of a subcommand that has these.
    pub(crate) fn beginning(all: &'static [(&'static str, Kind)]) -> Place
        ensures { place_as result ≡ beginning (arguments_as all.now) }
    {
        Place {
            to_come: all,
            goes_on: false,
            awaited: None,
            is_behind: false,
        }
    }

    /// The place behind a value.
    fn with_value<'a>(self, word: &'a str) -> Result<Place, Misuse<'a>>
        ensures ok { IfOk result (λ place.
            with_value (place_as self) word.entry.now ≡ onward (place_as place)) }
        ensures err { IfErr result (λ misuse.
            with_value (place_as self) word.entry.now ≡ wrong (misuse_as misuse)) }
    {
        if self.goes_on {
            return Ok(self);
        }
        match next_value(self.to_come) {
            Some((_, kind, more)) => Ok(Place {
                to_come: more,
                goes_on: kind.is_several(),
                ..self
            }),
            None => Err(Misuse::TooMany(word)),
        }
    }

    /// This place, where another option awaits its value, or none.
    fn awaiting(self, awaited: Option<&'static str>) -> Place
        ensures { place_as result
            ≡ record (place_as self) { awaited = option_map (λ name. name.now) awaited.entry } }
    {
        Place { awaited, ..self }
    }

    /// The place behind an option, if it is one of these.
    fn with_option<'a>(
        self,
        all: &'static [(&'static str, Kind)],
        word: &'a str,
    ) -> Result<Place, Misuse<'a>>
        ensures ok { IfOk result (λ place.
            with_option (arguments_as all.now) (place_as self) word.entry.now
            ≡ onward (place_as place)) }
        ensures err { IfErr result (λ misuse.
            with_option (arguments_as all.now) (place_as self) word.entry.now
            ≡ wrong (misuse_as misuse)) }
    {
        match option_in(all, word) {
            Some((name, kind)) => Ok(self.awaiting(awaited_by(name, kind, word))),
            None => Err(Misuse::NoOption(word, near_option(all, word))),
        }
    }

    /// The place behind the value of an option.
    fn with_awaited<'a>(self, name: &'static str, word: &'a str) -> Result<Place, Misuse<'a>>
        ensures ok { IfOk result (λ place.
            with_awaited name.now (place_as self) word.entry.now ≡ onward (place_as place)) }
        ensures err { IfErr result (λ misuse.
            with_awaited name.now (place_as self) word.entry.now ≡ wrong (misuse_as misuse)) }
    {
        if is_plain_argument(word) {
            return Ok(self.awaiting(None));
        }
        Err(Misuse::NoValue(name))
    }

    /// The place behind `--`.
    fn behind(self) -> Place
        ensures { place_as result ≡ record (place_as self) { is_behind = true } }
    {
        Place {
            is_behind: true,
            ..self
        }
    }

    /// The place behind a value, an option or `--`.
    fn with_any<'a>(
        self,
        all: &'static [(&'static str, Kind)],
        word: &'a str,
    ) -> Result<Place, Misuse<'a>>
        ensures ok { IfOk result (λ place.
            with_any (arguments_as all.now) (place_as self) word.entry.now
            ≡ onward (place_as place)) }
        ensures err { IfErr result (λ misuse.
            with_any (arguments_as all.now) (place_as self) word.entry.now
            ≡ wrong (misuse_as misuse)) }
    {
        if word == "--" {
            return Ok(self.behind());
        }
        if is_plain_argument(word) {
            return self.with_value(word);
        }
        self.with_option(all, word)
    }

    /// The place behind the next argument, or what is wrong with that.
    pub(crate) fn after<'a>(
        self,
        all: &'static [(&'static str, Kind)],
        word: &'a str,
    ) -> Result<Place, Misuse<'a>>
        ensures ok { IfOk result (λ place.
            step (arguments_as all.now) (place_as self) word.entry.now
            ≡ onward (place_as place)) }
        ensures err { IfErr result (λ misuse.
            step (arguments_as all.now) (place_as self) word.entry.now
            ≡ wrong (misuse_as misuse)) }
    {
        if self.is_behind {
            return self.with_value(word);
        }
        match self.awaited {
            Some(name) => self.with_awaited(name, word),
            None => self.with_any(all, word),
        }
    }

    /// What is wrong where no argument is left.
    pub(crate) fn lacks<'a>(self) -> Misuse<'a>
        ensures { misuse_as result ≡ at_end (place_as self).awaited (place_as self).to_come }
    {
        if let Some(name) = self.awaited {
            return Misuse::NoValue(name);
        }
        match next_value(self.to_come) {
            Some((name, kind, _)) => lacks_value(name, kind),
            None => Misuse::OfOptions,
        }
    }
}
