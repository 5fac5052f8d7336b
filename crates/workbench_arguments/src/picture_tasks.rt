//! The tasks of the subcommands that draw cards and listings.

ghost use Rattle.std.specs.Prelude.{IfOk};
ghost use Rattle.command_line.specs.Arguments.{given};
ghost use Rattle.workbench_arguments.specs.Tasks.{WantsCard, WantsDeck, WantsPage, WantsPages};

use crate::bench_tasks::setup_in;
use crate::complaints::NO_CARD;
use crate::tasks::{Task, number};
use command_line::{Found, Mistake};

/// The task of a subcommand `card`.
pub(crate) fn card_task<'a>(found: &Found<'a>) -> Result<Task<'a>, Mistake<'static>>
    ensures { IfOk result (WantsCard (given found.now)) }
{
    let deck = found.needed("DECK")?;
    let number = number(found.needed("N")?, NO_CARD)?;
    let out = found.needed("OUT")?;
    Ok(Task::Card { deck, number, out })
}

/// The task of a subcommand `deck`.
pub(crate) fn deck_task<'a>(found: &Found<'a>) -> Result<Task<'a>, Mistake<'static>>
    ensures { IfOk result (WantsDeck (given found.now)) }
{
    let deck = found.needed("DECK")?;
    let out = found.needed("OUT")?;
    let title = found.value("title");
    Ok(Task::Deck { deck, out, title })
}

/// The task of a subcommand `pages`.
pub(crate) fn pages_task<'a>(found: &Found<'a>) -> Result<Task<'a>, Mistake<'static>>
    ensures { IfOk result (WantsPages (given found.now)) }
{
    let listing = found.needed("LISTING")?;
    let out = found.needed("OUT")?;
    let title = found.value("title");
    Ok(Task::Pages {
        listing,
        out,
        title,
    })
}

/// The task of a subcommand `page`.
pub(crate) fn page_task<'a>(found: &Found<'a>) -> Result<Task<'a>, Mistake<'static>>
    ensures { IfOk result (WantsPage (given found.now)) }
{
    let setup = setup_in(found, "SOURCE")?;
    let out = found.needed("OUT")?;
    let title = found.value("title");
    Ok(Task::Page { setup, out, title })
}
