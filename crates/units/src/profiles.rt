//! The profiles of the machine.

ghost use Rattle.std.specs.Prelude.{◌≡◌};
ghost use Rattle.units.specs.Stacked.{is_selecting};

/// The profile of a job's machine: what its punch can do.
#[derive(Clone, Copy)]
pub enum Profile {
    /// Profile 1, of jobs made before there was stacker selection: all cards go into the normal
    /// pocket, since no machine of this profile chooses another. A picture in which another one is
    /// chosen is taken as it stands.
    Plain,
    /// Profile 2: with stacker selection.
    Selecting,
}

impl Profile {
    /// Whether a machine of this profile has stacker selection.
    pub(crate) fn is_selecting(self) -> bool
        ensures { result ≡ is_selecting self }
    {
        match self {
            Profile::Plain => false,
            Profile::Selecting => true,
        }
    }
}
