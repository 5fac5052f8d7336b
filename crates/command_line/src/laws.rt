//! The law of the arguments.

ghost use Rattle.std.specs.Prelude.{◌≡◌, ◌↔◌, List, Option, length, true};
ghost use Rattle.clap.specs.Words.{Row, Text};
ghost use Rattle.command_line.specs.{
  Asked.{AreTaken, Asks, HasValues},
  Programs.{AsksFor, for_help, for_subcommand, is_clear},
  Subcommands.{bureau, values_of},
  declared.subcommands.Subcommand.{Subcommand},
};

/// The law of the arguments: by the table of the subcommands arguments ask for what they say. They
/// ask for a help in just these arguments (`help`). Where none of them can be read as an option, a
/// subcommand that they ask for is that of their first argument, with the values after it
/// (`subcommand`); and a subcommand's name with as many values as it has asks for the subcommand
/// with these values (`values`).
pub fn arguments_are_those_of_the_table()
    ensures help { (arguments : List Text) (page : Option Subcommand) →
        AsksFor bureau arguments (for_help page) ↔ Asks arguments (for_help page) }
    ensures subcommand { (arguments : List Text) (subcommand : Subcommand) (found : List Row) →
        is_clear bureau arguments ≡ true → AsksFor bureau arguments (for_subcommand subcommand found) →
        Asks arguments (for_subcommand subcommand found) }
    ensures values { (arguments values : List Text) (subcommand : Subcommand) →
        length values ≡ length (values_of subcommand) → HasValues subcommand values arguments →
        AreTaken arguments subcommand values }
{}
