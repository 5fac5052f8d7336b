//! The table of the subcommands.

use command_line::{Kind, Program, Syntax};

/// The name of a subcommand.
#[derive(Clone, Copy)]
pub enum Subcommand {
    /// `punch`.
    Punch,
    /// `list`.
    List,
    /// `compare`.
    Compare,
    /// `sequence`.
    Sequence,
    /// `convert`.
    Convert,
    /// `cut`.
    Cut,
    /// `source`.
    Source,
    /// `manifest`.
    Manifest,
    /// `intake`.
    Intake,
    /// `trace`.
    Trace,
    /// `dump`.
    Dump,
    /// `profile`.
    Profile,
    /// `console`.
    Console,
    /// `card`.
    Card,
    /// `deck`.
    Deck,
    /// `pages`.
    Pages,
    /// `page`.
    Page,
    /// `film`.
    Film,
    /// `code`.
    Code,
}

/// The subcommands.
const SUBCOMMANDS: [Syntax<Subcommand>; 19] = [
    Syntax {
        subcommand: Subcommand::Punch,
        name: "punch",
        arguments: &[
            ("IN", Kind::Value),
            ("OUT", Kind::Value),
            ("fold", Kind::Flag),
            ("tabs", Kind::Setting),
            ("signs", Kind::Setting),
            ("keep", Kind::Setting),
            ("empty", Kind::Setting),
            ("report", Kind::Flag),
        ],
        usage: "punch IN OUT [--fold] [--tabs LIST] [--signs TABLE] [--keep COLUMN] \
             [--empty MODE] [--report]",
    },
    Syntax {
        subcommand: Subcommand::List,
        name: "list",
        arguments: &[
            ("DECK", Kind::Value),
            ("ruler", Kind::Flag),
            ("punches", Kind::Flag),
        ],
        usage: "list DECK [--ruler] [--punches]",
    },
    Syntax {
        subcommand: Subcommand::Compare,
        name: "compare",
        arguments: &[("ONE", Kind::Value), ("OTHER", Kind::Value)],
        usage: "compare ONE OTHER",
    },
    Syntax {
        subcommand: Subcommand::Sequence,
        name: "sequence",
        arguments: &[
            ("IN", Kind::Value),
            ("OUT", Kind::Further),
            ("IDENT", Kind::Further),
            ("FIRST", Kind::Further),
            ("STEP", Kind::Further),
        ],
        usage: "sequence IN [OUT IDENT FIRST STEP]",
    },
    Syntax {
        subcommand: Subcommand::Convert,
        name: "convert",
        arguments: &[
            ("IN", Kind::Value),
            ("OUT", Kind::Value),
            ("FROM", Kind::Value),
            ("TO", Kind::Value),
        ],
        usage: "convert IN OUT FROM TO",
    },
    Syntax {
        subcommand: Subcommand::Cut,
        name: "cut",
        arguments: &[
            ("IN", Kind::Value),
            ("OUT", Kind::Value),
            ("FIRST", Kind::Value),
            ("LAST", Kind::Value),
            ("numbers", Kind::Flag),
        ],
        usage: "cut IN OUT FIRST LAST [--numbers]",
    },
    Syntax {
        subcommand: Subcommand::Source,
        name: "source",
        arguments: &[
            ("IN", Kind::Value),
            ("data", Kind::Flag),
            ("width", Kind::Setting),
        ],
        usage: "source IN [--data] [--width 80|120]",
    },
    Syntax {
        subcommand: Subcommand::Manifest,
        name: "manifest",
        arguments: &[
            ("FILE", Kind::Several),
            ("form", Kind::Setting),
            ("cards", Kind::Flag),
            ("check", Kind::Setting),
        ],
        usage: "manifest FILE.. [--form FORM] [--cards] [--check KNOWN]",
    },
    Syntax {
        subcommand: Subcommand::Intake,
        name: "intake",
        arguments: &[
            ("FOLDER", Kind::Value),
            ("OUT", Kind::Value),
            ("fold", Kind::Flag),
            ("tabs", Kind::Setting),
            ("signs", Kind::Setting),
            ("keep", Kind::Setting),
            ("empty", Kind::Setting),
        ],
        usage: "intake FOLDER OUT [--fold] [--tabs LIST] [--signs TABLE] \
             [--keep COLUMN] [--empty MODE]",
    },
    Syntax {
        subcommand: Subcommand::Trace,
        name: "trace",
        arguments: &[
            ("DECK", Kind::Value),
            ("SIZE", Kind::Value),
            ("SWITCHES", Kind::Value),
            ("from", Kind::Setting),
            ("count", Kind::Setting),
            ("stop", Kind::Setting),
            ("names", Kind::Setting),
            ("fields", Kind::Flag),
        ],
        usage: "trace DECK SIZE SWITCHES [--from N] [--count N] [--stop ADDRESS] \
             [--names SOURCE] [--fields]",
    },
    Syntax {
        subcommand: Subcommand::Dump,
        name: "dump",
        arguments: &[
            ("DECK", Kind::Value),
            ("SIZE", Kind::Value),
            ("SWITCHES", Kind::Value),
            ("after", Kind::Setting),
            ("stop", Kind::Setting),
            ("first", Kind::Setting),
            ("last", Kind::Setting),
        ],
        usage: "dump DECK SIZE SWITCHES [--after N] [--stop ADDRESS] [--first N] \
             [--last N]",
    },
    Syntax {
        subcommand: Subcommand::Profile,
        name: "profile",
        arguments: &[
            ("DECK", Kind::Value),
            ("SIZE", Kind::Value),
            ("SWITCHES", Kind::Value),
            ("names", Kind::Setting),
        ],
        usage: "profile DECK SIZE SWITCHES [--names SOURCE]",
    },
    Syntax {
        subcommand: Subcommand::Console,
        name: "console",
        arguments: &[
            ("DECK", Kind::Value),
            ("SIZE", Kind::Value),
            ("SWITCHES", Kind::Value),
            ("names", Kind::Setting),
        ],
        usage: "console DECK SIZE SWITCHES [--names SOURCE]",
    },
    Syntax {
        subcommand: Subcommand::Card,
        name: "card",
        arguments: &[
            ("DECK", Kind::Value),
            ("N", Kind::Value),
            ("OUT", Kind::Value),
        ],
        usage: "card DECK N OUT",
    },
    Syntax {
        subcommand: Subcommand::Deck,
        name: "deck",
        arguments: &[
            ("DECK", Kind::Value),
            ("OUT", Kind::Value),
            ("title", Kind::Setting),
        ],
        usage: "deck DECK OUT [--title TEXT]",
    },
    Syntax {
        subcommand: Subcommand::Pages,
        name: "pages",
        arguments: &[
            ("LISTING", Kind::Value),
            ("OUT", Kind::Value),
            ("title", Kind::Setting),
        ],
        usage: "pages LISTING OUT [--title TEXT]",
    },
    Syntax {
        subcommand: Subcommand::Page,
        name: "page",
        arguments: &[
            ("SOURCE", Kind::Value),
            ("SIZE", Kind::Value),
            ("SWITCHES", Kind::Value),
            ("OUT", Kind::Value),
            ("title", Kind::Setting),
        ],
        usage: "page SOURCE SIZE SWITCHES OUT [--title TEXT]",
    },
    Syntax {
        subcommand: Subcommand::Film,
        name: "film",
        arguments: &[
            ("DECK", Kind::Value),
            ("SIZE", Kind::Value),
            ("SWITCHES", Kind::Value),
            ("OUT", Kind::Value),
            ("names", Kind::Setting),
            ("from", Kind::Setting),
            ("last", Kind::Setting),
            ("count", Kind::Setting),
            ("title", Kind::Setting),
        ],
        usage: "film DECK SIZE SWITCHES OUT [--names SOURCE] [--from N] [--last N] \
             [--count N] [--title TEXT]",
    },
    Syntax {
        subcommand: Subcommand::Code,
        name: "code",
        arguments: &[
            ("DECK", Kind::Value),
            ("SIZE", Kind::Value),
            ("OUT", Kind::Further),
            ("names", Kind::Setting),
            ("after", Kind::Setting),
            ("run", Kind::Flag),
            ("numbers", Kind::Flag),
        ],
        usage: "code DECK SIZE [OUT] [--names SOURCE] [--after N] [--run] [--numbers]",
    },
];

/// The program by its arguments.
pub const WORKBENCH: Program<Subcommand> = Program {
    name: "workbench",
    subcommands: &SUBCOMMANDS,
};
