//! The first of the wrong words that were noted.

ghost use Rattle.std.specs.Prelude.{◌≡◌, None, Some};
ghost use Rattle.requirement_names.specs.Wrong.{earlier, noting, wrong_if};

use crate::mistake::{Mistake, WrongWord};
use requirements::PlacedWord;
use std::marker::Model;

/// The first of the wrong words that were noted, by their places; of two at one place the one that was noted first.
#[derive(Drop)]
pub(crate) struct FirstWrong {
    noted: Option<WrongWord>,
}

impl Model for FirstWrong {
    ghost use Rattle.std.specs.Prelude.{Option};
    ghost use Rattle.requirement_names.specs.declared.mistake.WrongWord.{WrongWord};

    ghost Value = { Option WrongWord };

    ghost view = { λ first. first.noted };
}

impl FirstWrong {
    /// Nothing is noted yet.
    pub(crate) fn new() -> FirstWrong
        ensures { result ≡ None }
    {
        FirstWrong { noted: None }
    }

    /// Notes a word as wrong, where this is so.
    pub(crate) fn note_if(&mut self, is_so: bool, mistake: Mistake, word: &PlacedWord)
        ensures { self.new ≡ noting self.old (wrong_if is_so mistake word.now) }
    {
        if is_so {
            self.note(WrongWord {
                mistake,
                at: word.at,
            });
        }
    }

    fn note(&mut self, word: WrongWord)
        ensures { self.new ≡ Some (earlier self.old word) }
    {
        self.noted = match self.noted {
            None => Some(word),
            Some(first) => Some(if word.at < first.at { word } else { first }),
        };
    }

    /// The first that was noted, where one was.
    pub(crate) fn noted(&self) -> Option<WrongWord>
        ensures { result ≡ self.now }
    {
        self.noted
    }
}
