//! The requirements that a text has.

ghost use Rattle.std.specs.Prelude.{◌≡◌, Ok, IfErr, IfOk, OnOk};
ghost use Rattle.requirements.specs.Requirements.{group_line, requirement_line, requirements_of, with_group, with_line};
ghost use Rattle.requirements.specs.inner.Faults.{IsFault};

use crate::sentence::{Sentence, sentence_of, words_again};
use crate::words::{PlacedWord, lines_of};
use plain_values::List;
use std::alloc::{AllocError, Global};

/// Of what a group is made.
#[derive(Clone, Copy)]
pub enum GroupKind {
    /// Of components, and of what lies below them.
    Parts,
    /// Of error events.
    Events,
}

/// A group of components or of error events, and its name.
#[derive(Drop)]
pub struct Group {
    pub kind: GroupKind,
    pub name: PlacedWord,
    pub members: List<PlacedWord>,
}

/// What is required of a target, and the name of the requirement.
#[derive(Drop)]
pub struct Requirement {
    pub name: PlacedWord,
    pub target: PlacedWord,
    pub sentence: Sentence,
}

/// The groups and the requirements of a text, each in its order.
#[derive(Drop)]
pub struct Requirements {
    pub groups: List<Group>,
    pub requirements: List<Requirement>,
}

/// Why the requirements of a text are not read.
#[derive(Drop, Clone, Copy)]
pub enum Fault {
    Memory,
    /// The word at this place is wrong, or one lacks behind it.
    Wrong(usize),
}

impl From<AllocError> for Fault {
    ghost use Rattle.requirements.specs.declared.reading.Fault.TheVariants.{Memory};

    ghost from_gives = { λ _ fault. fault ≡ Memory };

    fn from(_error: AllocError) -> Fault {
        Fault::Memory
    }
}

/// The requirements of a text: a line each, of a name, a target and a sentence, or of a group. `#` where a word might begin begins a
/// comment; blanks part words; a line ends with a line feed, before which a carriage return may stand.
pub fn requirements_of(alloc: Global, text: &[u8]) -> Result<Requirements, Fault>
    ensures read { IfOk result (λ all. requirements_of text.now ≡ Ok all) }
    ensures wrong { IfErr result (IsFault (requirements_of text.now)) }
{
    let lines = lines_of(alloc, text)?;
    let mut all = Requirements {
        groups: List::new(alloc),
        requirements: List::new(alloc),
    };
    for line in lines.items() {
        all.add_line(alloc, line.items())?;
    }
    Ok(all)
}

impl Requirements {
    /// Adds what one line says.
    fn add_line(&mut self, alloc: Global, words: &[PlacedWord]) -> Result<(), Fault>
        ensures read { IfOk result (λ _. with_line self.old words.now ≡ Ok self.new) }
        ensures wrong { IfErr result (IsFault (with_line self.old words.now)) }
    {
        let Some((word, more)) = words.split_first() else {
            return Ok(());
        };
        if word.is(b"parts") {
            return self.add_group(alloc, GroupKind::Parts, word, more);
        }
        if word.is(b"events") {
            return self.add_group(alloc, GroupKind::Events, word, more);
        }
        self.add_requirement(alloc, word, more)
    }

    /// Adds a group that begins with this word.
    fn add_group(
        &mut self,
        alloc: Global,
        kind: GroupKind,
        word: &PlacedWord,
        more: &[PlacedWord],
    ) -> Result<(), Fault>
        ensures read { IfOk result (λ _. group_line self.old kind word.now more.now ≡ Ok self.new) }
        ensures wrong { IfErr result (IsFault (group_line self.old kind word.now more.now)) }
    {
        let Some((name, members)) = more.split_first() else {
            return Err(Fault::Wrong(word.at));
        };
        if members.is_empty() {
            return Err(Fault::Wrong(name.at));
        }
        self.groups.push(Group {
            kind,
            name: name.again(alloc)?,
            members: words_again(alloc, members)?,
        })?;
        Ok(())
    }

    /// Adds the requirement of this name.
    fn add_requirement(
        &mut self,
        alloc: Global,
        name: &PlacedWord,
        more: &[PlacedWord],
    ) -> Result<(), Fault>
        ensures read { IfOk result (λ _. requirement_line self.old name.now more.now ≡ Ok self.new) }
        ensures wrong { IfErr result (IsFault (requirement_line self.old name.now more.now)) }
    {
        let Some((target, more)) = more.split_first() else {
            return Err(Fault::Wrong(name.at));
        };
        let Some((word, more)) = more.split_first() else {
            return Err(Fault::Wrong(target.at));
        };
        let sentence = sentence_of(alloc, word, more)?;
        self.requirements.push(Requirement {
            name: name.again(alloc)?,
            target: target.again(alloc)?,
            sentence,
        })?;
        Ok(())
    }
}
