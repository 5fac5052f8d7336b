//! What lines begin with.

ghost use Rattle.console.specs.Verbs.{IsVerbOf};

/// What a line begins with.
#[derive(Clone, Copy)]
pub(crate) enum Verb {
    Step,
    Go,
    Stop,
    Stops,
    Clear,
    Watch,
    Dump,
    Registers,
    Field,
    Cards,
    Lines,
    Start,
    Back,
    Help,
    End,
}

impl Verb {
    /// The verb that a word is.
    pub(crate) fn of(word: &[u8]) -> Option<Verb>
        ensures { IsVerbOf word.now result }
    {
        match word {
            b"step" => Some(Verb::Step),
            b"go" => Some(Verb::Go),
            b"stop" => Some(Verb::Stop),
            b"stops" => Some(Verb::Stops),
            b"clear" => Some(Verb::Clear),
            b"watch" => Some(Verb::Watch),
            b"dump" => Some(Verb::Dump),
            b"registers" => Some(Verb::Registers),
            b"field" => Some(Verb::Field),
            b"cards" => Some(Verb::Cards),
            b"lines" => Some(Verb::Lines),
            b"start" => Some(Verb::Start),
            b"back" => Some(Verb::Back),
            b"help" => Some(Verb::Help),
            b"end" => Some(Verb::End),
            _ => None,
        }
    }
}
