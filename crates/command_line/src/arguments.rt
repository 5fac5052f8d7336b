//! The arguments that clap found after a subcommand's name.

ghost use Rattle.std.specs.Prelude.{◌≡◌, [], IfOk, map, unwrap_or};
ghost use Rattle.clap.specs.Words.{all_of, found_of, rows_of};
ghost use Rattle.command_line.specs.Arguments.{HasArgument, MayHaveArgument, given, has_flag};

use crate::mistakes::Mistake;
use crate::misuses::Misuse;
use clap::ArgMatches;
use std::alloc::{AllocError, Global};

/// The arguments of a subcommand.
#[derive(Drop)]
pub struct Found<'a> {
    matches: ArgMatches<'a>,
    usage: &'static str,
}

impl<'a> Found<'a> {
    /// What clap found after the name of a subcommand that is used so.
    pub(crate) fn of(matches: ArgMatches<'a>, usage: &'static str) -> Found<'a>
        ensures { given result ≡ rows_of (found_of matches.entry) }
    {
        Found { matches, usage }
    }

    /// Returns the value of an argument, if one was given.
    pub fn value(&self, name: &str) -> Option<&'a str>
        ensures { MayHaveArgument name.now (given self.now) result }
    {
        self.matches.get_str(name)
    }

    /// Returns the value of an argument that the subcommand cannot lack.
    pub fn needed(&self, name: &'static str) -> Result<&'a str, Mistake<'static>>
        ensures { IfOk result (λ text. HasArgument name.now (given self.now) text.now) }
    {
        match self.value(name) {
            Some(text) => Ok(text),
            None => Err(Mistake::Arguments(Misuse::Missing(name), self.usage)),
        }
    }

    /// Returns whether an option without a value was given.
    #[tactic(auto, unfolding(crate::specs::Arguments::has_flag))]
    pub fn has_flag(&self, name: &str) -> bool
        ensures { result ≡ has_flag name.now (given self.now) }
    {
        match self.value(name) {
            Some(value) => value == "true",
            None => false,
        }
    }

    /// Returns all values of an argument. Fails only if there is no memory.
    pub fn values(&self, alloc: Global, name: &str) -> Result<Vec<&'a str>, AllocError>
        ensures { IfOk result (λ values. map (λ s. s.now) values.items
            ≡ unwrap_or (all_of name.now (given self.now)) []) }
    {
        match self.matches.get_strs(name) {
            Some(values) => {
                let mut all = Vec::new(alloc);
                all.extend_from_slice(values)?;
                Ok(all)
            }
            None => Ok(Vec::new(alloc)),
        }
    }
}
