//! The table of the subcommands.

use crate::programs::{Program, Syntax};
use crate::tables::Kind;

/// The name of a subcommand.
#[derive(Clone, Copy, Debug, PartialEq, Eq)]
pub enum Subcommand {
    /// `run`.
    Run,
    /// `assemble`.
    Assemble,
    /// `init`.
    Init,
    /// `apply`.
    Apply,
    /// `export`.
    Export,
    /// `migrate`.
    Migrate,
    /// `serve`.
    Serve,
}

/// The subcommands.
const SUBCOMMANDS: [Syntax<Subcommand>; 7] = [
    Syntax {
        subcommand: Subcommand::Run,
        name: "run",
        arguments: &[
            ("DECK", Kind::Value),
            ("SIZE", Kind::Value),
            ("SWITCHES", Kind::Value),
        ],
        usage: "run DECK SIZE SWITCHES",
    },
    Syntax {
        subcommand: Subcommand::Assemble,
        name: "assemble",
        arguments: &[("IN", Kind::Value), ("OUT", Kind::Value)],
        usage: "assemble IN OUT",
    },
    Syntax {
        subcommand: Subcommand::Init,
        name: "init",
        arguments: &[("FILE", Kind::Value)],
        usage: "init FILE",
    },
    Syntax {
        subcommand: Subcommand::Apply,
        name: "apply",
        arguments: &[("FILE", Kind::Value), ("SCRIPT", Kind::Value)],
        usage: "apply FILE SCRIPT",
    },
    Syntax {
        subcommand: Subcommand::Export,
        name: "export",
        arguments: &[
            ("FILE", Kind::Value),
            ("CUSTOMER", Kind::Value),
            ("NUMBER", Kind::Value),
        ],
        usage: "export FILE CUSTOMER NUMBER",
    },
    Syntax {
        subcommand: Subcommand::Migrate,
        name: "migrate",
        arguments: &[("FILE", Kind::Value)],
        usage: "migrate FILE",
    },
    Syntax {
        subcommand: Subcommand::Serve,
        name: "serve",
        arguments: &[
            ("FILE", Kind::Value),
            ("PORT", Kind::Value),
            ("COUNT", Kind::Value),
        ],
        usage: "serve FILE PORT COUNT",
    },
];

/// The program by its arguments.
pub(crate) const BUREAU: Program<Subcommand> = Program {
    name: "bureau",
    subcommands: &SUBCOMMANDS,
};
