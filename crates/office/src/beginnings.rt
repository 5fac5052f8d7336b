//! The law of whole runs that begin with loading.

ghost use Rattle.std.specs.Prelude.{◌++◌, ◌↔◌, ℕ, List};
ghost use Rattle.cards.specs.declared.decks.Card.{Card};
ghost use Rattle.core_store.specs.{Storage.{positions_of}, declared.sizes.Size.{Size}};
ghost use Rattle.autocoder.specs.Loadable.{IsLoadable};
ghost use Rattle.machine.specs.Run.{loaded};
ghost use Rattle.units.specs.{
  declared.printer.Line.{Line},
  declared.profiles.Profile.{Profile},
  declared.punch.Punched.{Punched},
  declared.switches.Switches.{Switches},
};
ghost use Rattle.autocoder_layout.specs.declared.cells.Cell.{Cell};
ghost use Rattle.loader.specs.{Cards.{loading_cards}, Loading.{at_the_start}};
ghost use Rattle.office.specs.Whole.{Whole};

use crate::halts::stopped_machines_stay;
use loader::cards_load_the_program;
use machine::runs_add;

/// The law of beginnings: a machine that loads a program makes the same cards and lines as one that
/// begins at the program's start.
pub fn programs_run_from_their_start()
    ensures { (size : Size) (image : List Cell) (start : ℕ) (data_cards : List Card)
        (profile : Profile) (starts : List Switches) (cards : List Punched) (lines : List Line) →
        IsLoadable (positions_of size) image start →
        Whole (λ switches. loaded (loading_cards image start ++ data_cards) size switches profile)
        starts cards lines
        ↔ Whole (λ switches. at_the_start image start data_cards size switches profile)
        starts cards lines }
{
    runs_add();
    stopped_machines_stay();
    cards_load_the_program();
}
