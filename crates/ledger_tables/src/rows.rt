//! The rows of the tables, without their job's name and their place.

use std::marker::Model;

/// A row of `jobs`.
#[derive(Drop)]
pub struct JobRow {
    /// 0 for a deck that is loaded as it is, 1 for a source.
    pub kind: u32,
    /// The number of positions of storage.
    pub size: u32,
    /// The deck that was handed in: 80 bytes a card, each the number of a character.
    pub deck: Vec<u8>,
    /// The deck in the card reader, in the same form.
    pub loaded: Vec<u8>,
    /// 0 or 1.
    pub held: u32,
    /// 0 or 1.
    pub collected: u32,
}

impl Model for JobRow {
    ghost use Rattle.ledger_tables.specs.Cells.{JobCells};

    ghost Value = { JobCells };

    ghost view = { λ row. record {
      kind = row.kind;
      size = row.size;
      deck = row.deck.items;
      loaded = row.loaded.items;
      held = row.held;
      collected = row.collected;
    } };
}

/// The columns of `jobs` that a job's machine needs.
#[derive(Drop)]
pub struct LoadedRow {
    /// The number of positions of storage.
    pub size: u32,
    /// The deck in the card reader: 80 bytes a card, each the number of a character.
    pub loaded: Vec<u8>,
    /// 0 or 1.
    pub held: u32,
    /// 0 or 1.
    pub collected: u32,
}

impl Model for LoadedRow {
    ghost use Rattle.ledger_tables.specs.Cells.{LoadedCells};

    ghost Value = { LoadedCells };

    ghost view = { λ row. record {
      size = row.size;
      loaded = row.loaded.items;
      held = row.held;
      collected = row.collected;
    } };
}

/// The columns of `jobs` in the list of a customer's jobs.
#[derive(Clone, Copy)]
pub struct NameRow {
    pub number: u32,
    /// 0 or 1.
    pub held: u32,
    /// 0 or 1.
    pub collected: u32,
}

/// The columns of `jobs` in the queue: the job's name.
#[derive(Drop)]
pub struct QueuedRow {
    pub customer: String,
    pub number: u32,
}

impl Model for QueuedRow {
    ghost use Rattle.std.specs.Prelude.{string_bytes};
    ghost use Rattle.ledger_tables.specs.Cells.{QueuedName};

    ghost Value = { QueuedName };

    ghost view = { λ row. record { customer = string_bytes row.customer; number = row.number } };
}

/// A row of `stretches`.
#[derive(Clone, Copy, PartialEq, Eq)]
pub struct StretchRow {
    /// Switch A is the lowest bit, G the seventh.
    pub switches: u32,
    /// The number of instructions granted, by all grants together.
    pub granted: u32,
}

/// A row of `states`.
#[derive(Clone, Copy, Debug)]
pub struct StateRow {
    pub i: u32,
    pub a: u32,
    pub b: u32,
    /// 0 equal, 1 B low, 2 B high.
    pub compare: u32,
    /// 0 or 1.
    pub overflow: u32,
    /// 0 or 1.
    pub channel: u32,
    /// 0 none, 1 to 3 spaces, 4 skip.
    pub waiting: u32,
    pub form: u32,
    pub line: u32,
    /// The number of cards read.
    pub taken: u32,
    /// The number of cards punched.
    pub cards: u32,
    /// The number of lines printed.
    pub lines: u32,
    /// 0 running, 1 halted, 2 to 8 the checks.
    pub standing: u32,
}

/// A row of `pages`.
#[derive(Drop)]
pub struct PageRow {
    /// The number of the page, from 0.
    pub page: u32,
    /// 100 bytes, one for each position: the number of its character, plus 64 if it is marked.
    pub storage: Vec<u8>,
}

impl Model for PageRow {
    ghost use Rattle.ledger_tables.specs.Cells.{PageCells};

    ghost Value = { PageCells };

    ghost view = { λ row. record { page = row.page; storage = row.storage.items } };
}

/// The storage of a row of `pictures`, which version 1 has: one byte for each position.
#[derive(Drop)]
pub struct StorageRow {
    pub storage: Vec<u8>,
}

impl Model for StorageRow {
    ghost use Rattle.std.specs.Prelude.{ℕ, List};

    ghost Value = { List ℕ };

    ghost view = { λ row. row.storage.items };
}

/// The columns of `states` for the progress of a job.
#[derive(Clone, Copy)]
pub struct ProgressRow {
    pub i: u32,
    /// The number of cards punched.
    pub cards: u32,
    /// The number of lines printed.
    pub lines: u32,
    /// 0 running, 1 halted, 2 to 8 the checks.
    pub standing: u32,
}

/// A row of `cards`: 80 bytes, each the number of a character.
#[derive(Drop)]
pub struct CardRow {
    pub card: Vec<u8>,
}

impl Model for CardRow {
    ghost use Rattle.std.specs.Prelude.{ℕ, List};

    ghost Value = { List ℕ };

    ghost view = { λ row. row.card.items };
}

/// A row of `profiles`.
#[derive(Clone, Copy, Debug)]
pub struct ProfileRow {
    /// 1 for a job made before version 4 of the tables, 2 for one made since.
    pub profile: u32,
    /// The pocket chosen for the next punched card: 0 the normal one, 4 or 8.
    pub chosen: u32,
}

/// A row of `pockets`.
#[derive(Clone, Copy, Debug)]
pub struct PocketRow {
    /// The place of the punched card, from 1.
    pub place: u32,
    /// 4 or 8.
    pub pocket: u32,
}

/// A row of `lines`.
#[derive(Drop)]
pub struct LineRow {
    pub form: u32,
    pub line: u32,
    /// 132 bytes, each the number of a character.
    pub image: Vec<u8>,
}

impl Model for LineRow {
    ghost use Rattle.ledger_tables.specs.Cells.{LineCells};

    ghost Value = { LineCells };

    ghost view = { λ row. record { form = row.form; line = row.line; image = row.image.items } };
}
