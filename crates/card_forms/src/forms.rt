//! The forms of a deck's file.

ghost use Rattle.std.specs.Prelude.{◌≡◌, ◌≢◌, IfSome, IsNone};
ghost use Rattle.card_forms.specs.{Forms.{word_of}, declared.forms.Form.{Form}};

/// How the cards of a deck are written in a file.
#[derive(Clone, Copy, Debug, PartialEq, Eq)]
pub enum Form {
    /// Eighty glyphs and a line feed a card.
    Text,
    /// Three hexadecimal digits a column and a line feed a card.
    Punch,
    /// A line of signs a card, as SimH's IBM 1401 reads and punches them, without the blanks at its
    /// end.
    Simh,
    /// Two bytes a column and nothing else: the first has the rows 12, 11, 0, 1, 2 and 3 as the
    /// bits 32, 16, 8, 4, 2 and 1, the second the rows 4 to 9.
    Binary,
}

impl Form {
    /// The form with this name: `text`, `punch`, `simh` or `binary`.
    pub fn of(word: &str) -> Option<Self>
        ensures found { IfSome result (λ form. word_of form ≡ word.now) }
        ensures missing { IsNone result → (form : Form) → word_of form ≢ word.now }
    {
        if word == "text" {
            return Some(Form::Text);
        }
        if word == "punch" {
            return Some(Form::Punch);
        }
        if word == "simh" {
            return Some(Form::Simh);
        }
        if word == "binary" {
            return Some(Form::Binary);
        }
        None
    }

    /// The form's name.
    pub fn word(self) -> &'static str
        ensures { result.now ≡ word_of self }
    {
        match self {
            Form::Text => "text",
            Form::Punch => "punch",
            Form::Simh => "simh",
            Form::Binary => "binary",
        }
    }
}
