//! The table of the subcommands.

use command_line::{Kind, Program, Syntax};

/// The name of a subcommand.
#[derive(Clone, Copy)]
pub enum Subcommand {
    /// `check`.
    Check,
    /// `jobs`.
    Jobs,
    /// `copy`.
    Copy,
    /// `part`.
    Part,
    /// `join`.
    Join,
    /// `archive`.
    Archive,
    /// `verify`.
    Verify,
    /// `restore`.
    Restore,
    /// `work`.
    Work,
    /// `watch`.
    Watch,
    /// `class`.
    Class,
}

/// The subcommands.
const SUBCOMMANDS: [Syntax<Subcommand>; 11] = [
    Syntax {
        subcommand: Subcommand::Check,
        name: "check",
        arguments: &[("FILE", Kind::Value)],
        usage: "check FILE",
    },
    Syntax {
        subcommand: Subcommand::Jobs,
        name: "jobs",
        arguments: &[("FILE", Kind::Value), ("CUSTOMER", Kind::Further)],
        usage: "jobs FILE [CUSTOMER]",
    },
    Syntax {
        subcommand: Subcommand::Copy,
        name: "copy",
        arguments: &[("FILE", Kind::Value), ("NEW", Kind::Value)],
        usage: "copy FILE NEW",
    },
    Syntax {
        subcommand: Subcommand::Part,
        name: "part",
        arguments: &[
            ("FILE", Kind::Value),
            ("NEW", Kind::Value),
            ("others", Kind::Flag),
            ("CUSTOMER", Kind::Several),
        ],
        usage: "part FILE NEW [--others] CUSTOMER..",
    },
    Syntax {
        subcommand: Subcommand::Join,
        name: "join",
        arguments: &[
            ("FIRST", Kind::Value),
            ("SECOND", Kind::Value),
            ("NEW", Kind::Value),
        ],
        usage: "join FIRST SECOND NEW",
    },
    Syntax {
        subcommand: Subcommand::Archive,
        name: "archive",
        arguments: &[
            ("FILE", Kind::Value),
            ("FOLDER", Kind::Value),
            ("pages", Kind::Flag),
        ],
        usage: "archive FILE FOLDER [--pages]",
    },
    Syntax {
        subcommand: Subcommand::Verify,
        name: "verify",
        arguments: &[("FOLDER", Kind::Value)],
        usage: "verify FOLDER",
    },
    Syntax {
        subcommand: Subcommand::Restore,
        name: "restore",
        arguments: &[("FOLDER", Kind::Value), ("NEW", Kind::Value)],
        usage: "restore FOLDER NEW",
    },
    Syntax {
        subcommand: Subcommand::Work,
        name: "work",
        arguments: &[
            ("PORT", Kind::Value),
            ("slice", Kind::Setting),
            ("rounds", Kind::Setting),
            ("pause", Kind::Setting),
            ("keep", Kind::Flag),
        ],
        usage: "work PORT [--slice N] [--rounds N] [--pause SECONDS] [--keep]",
    },
    Syntax {
        subcommand: Subcommand::Watch,
        name: "watch",
        arguments: &[
            ("PORT", Kind::Value),
            ("rounds", Kind::Setting),
            ("pause", Kind::Setting),
        ],
        usage: "watch PORT [--rounds N] [--pause SECONDS]",
    },
    Syntax {
        subcommand: Subcommand::Class,
        name: "class",
        arguments: &[
            ("PORT", Kind::Value),
            ("NAMES", Kind::Value),
            ("PAGE", Kind::Further),
            ("watch", Kind::Flag),
            ("pause", Kind::Setting),
        ],
        usage: "class PORT NAMES [PAGE] [--watch] [--pause SECONDS]",
    },
];

/// The program by its arguments.
pub const OPERATOR: Program<Subcommand> = Program {
    name: "operator",
    subcommands: &SUBCOMMANDS,
};
