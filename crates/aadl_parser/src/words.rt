ghost use Rattle.std.specs.Prelude.{◌≡◌, [], ◌∷◌, map};
ghost use Rattle.grammar_rules.specs.inner.Reader.{Gives, Begins};
ghost use Rattle.aadl_syntax.specs.inner.Token.{shown};
ghost use Rattle.grammar_rules.specs.Tokens.{is_one_of, one_of};
ghost use Rattle.aadl_parser.specs.Words.{unit_words, declaration_words, category_words, grouped_words, group_words, virtual_words, platform_words, section_words, skipped_words, inner_words, ending_words, direction_words, processor_words, is_name, begins_declaration, begins_end, any_of, optional_word, either_word};
ghost use Rattle.aadl_parser.specs.Names.{core_name};

use aadl_syntax::{Identifier, TokenRef};
use grammar_rules::{ReadError, Reader, is_one_of};

/// The words that the grammar of core text quotes.
const CORE_WORDS: [&[u8]; 46] = [
    b"abstract",
    b"access",
    b"all",
    b"annex",
    b"bus",
    b"calls",
    b"connections",
    b"data",
    b"device",
    b"end",
    b"event",
    b"extends",
    b"feature",
    b"features",
    b"flows",
    b"group",
    b"implementation",
    b"in",
    b"internal",
    b"is",
    b"memory",
    b"modes",
    b"none",
    b"out",
    b"package",
    b"parameter",
    b"port",
    b"private",
    b"process",
    b"processor",
    b"properties",
    b"property",
    b"prototypes",
    b"provides",
    b"public",
    b"refined",
    b"renames",
    b"requires",
    b"set",
    b"subcomponents",
    b"subprogram",
    b"system",
    b"thread",
    b"to",
    b"virtual",
    b"with",
];

/// The first words of the units of a file.
const UNIT_WORDS: [&[u8]; 2] = [b"property", b"package"];

/// The first words of the declarations of a package.
const DECLARATION_WORDS: [&[u8]; 15] = [
    b"with",
    b"renames",
    b"feature",
    b"annex",
    b"abstract",
    b"data",
    b"subprogram",
    b"thread",
    b"process",
    b"memory",
    b"processor",
    b"virtual",
    b"bus",
    b"device",
    b"system",
];

/// The categories of one word, to which no other belongs.
const CATEGORY_WORDS: [&[u8]; 8] = [
    b"abstract",
    b"data",
    b"process",
    b"memory",
    b"processor",
    b"bus",
    b"device",
    b"system",
];

/// The words behind which a category may have `group`.
const GROUPED_WORDS: [&[u8]; 2] = [b"subprogram", b"thread"];

/// The word of a category that may follow these.
const GROUP_WORDS: [&[u8]; 1] = [b"group"];

/// The first word of a category that has always two.
const VIRTUAL_WORDS: [&[u8]; 1] = [b"virtual"];

/// The words of a category that follow `virtual`.
const PLATFORM_WORDS: [&[u8]; 2] = [b"processor", b"bus"];

/// The first words of the sections of a classifier.
const SECTION_WORDS: [&[u8]; 12] = [
    b"features",
    b"subcomponents",
    b"connections",
    b"prototypes",
    b"flows",
    b"modes",
    b"calls",
    b"properties",
    b"requires",
    b"internal",
    b"processor",
    b"annex",
];

/// The words of sections that are read past.
const SKIPPED_WORDS: [&[u8]; 3] = [b"flows", b"modes", b"calls"];

/// The words before `features` of sections that are read past.
const INNER_WORDS: [&[u8]; 2] = [b"internal", b"processor"];

/// The words that end a section that is read past.
const ENDING_WORDS: [&[u8]; 13] = [
    b"prototypes",
    b"features",
    b"subcomponents",
    b"connections",
    b"flows",
    b"modes",
    b"calls",
    b"properties",
    b"requires",
    b"internal",
    b"processor",
    b"annex",
    b"end",
];

/// The words of a direction.
const DIRECTION_WORDS: [&[u8]; 2] = [b"in", b"out"];

/// The word that may begin an end of a connection in the place of an identifier.
const PROCESSOR_WORDS: [&[u8]; 1] = [b"processor"];

/// Whether the token `k` places ahead is an identifier.
#[tactic(auto, unfolding(crate::specs::Words::is_name, crate::specs::Words::core_words))]
pub(crate) fn name_at(reader: &mut Reader, k: usize) -> bool
    ensures { Begins result k (is_name ∷ []) reader.old reader.new }
{
    reader.identifier_at(k, &CORE_WORDS)
}

/// Whether the next token begins a unit.
#[tactic(auto, unfolding(crate::specs::Words::unit_words))]
pub(crate) fn unit_at(reader: &mut Reader) -> bool
    ensures { Begins result 0 (is_one_of unit_words ∷ []) reader.old reader.new }
{
    reader.one_of_at(0, &UNIT_WORDS)
}

/// Whether the next token is the first word of a declaration.
#[tactic(auto, unfolding(crate::specs::Words::declaration_words))]
fn declaration_word_at(reader: &mut Reader) -> bool
    ensures { Begins result 0 (is_one_of declaration_words ∷ []) reader.old reader.new }
{
    reader.one_of_at(0, &DECLARATION_WORDS)
}

/// Whether the next token begins a declaration.
#[tactic(auto, unfolding(crate::specs::Words::begins_declaration))]
pub(crate) fn declaration_at(reader: &mut Reader) -> bool
    ensures { Begins result 0 (begins_declaration ∷ []) reader.old reader.new }
{
    name_at(reader, 0) || declaration_word_at(reader)
}

/// Whether the next token is a word behind which a category may have `group`.
#[tactic(auto, unfolding(crate::specs::Words::grouped_words))]
pub(crate) fn grouped_at(reader: &mut Reader) -> bool
    ensures { Begins result 0 (is_one_of grouped_words ∷ []) reader.old reader.new }
{
    reader.one_of_at(0, &GROUPED_WORDS)
}

/// Whether the next token is the word `group`.
#[tactic(auto, unfolding(crate::specs::Words::group_words))]
pub(crate) fn group_at(reader: &mut Reader) -> bool
    ensures { Begins result 0 (is_one_of group_words ∷ []) reader.old reader.new }
{
    reader.one_of_at(0, &GROUP_WORDS)
}

/// Whether the next token is the word `virtual`.
#[tactic(auto, unfolding(crate::specs::Words::virtual_words))]
pub(crate) fn virtual_at(reader: &mut Reader) -> bool
    ensures { Begins result 0 (is_one_of virtual_words ∷ []) reader.old reader.new }
{
    reader.one_of_at(0, &VIRTUAL_WORDS)
}

/// Whether the next token begins a section.
#[tactic(auto, unfolding(crate::specs::Words::section_words))]
pub(crate) fn section_at(reader: &mut Reader) -> bool
    ensures { Begins result 0 (is_one_of section_words ∷ []) reader.old reader.new }
{
    reader.one_of_at(0, &SECTION_WORDS)
}

/// Whether the next token is a word before `features` of a section that is read past.
#[tactic(auto, unfolding(crate::specs::Words::inner_words))]
pub(crate) fn inner_at(reader: &mut Reader) -> bool
    ensures { Begins result 0 (is_one_of inner_words ∷ []) reader.old reader.new }
{
    reader.one_of_at(0, &INNER_WORDS)
}

/// Whether the token `k` places ahead is a word that ends a section that is read past.
#[tactic(auto, unfolding(crate::specs::Words::ending_words))]
pub(crate) fn ending_at(reader: &mut Reader, k: usize) -> bool
    ensures { Begins result k (is_one_of ending_words ∷ []) reader.old reader.new }
{
    reader.one_of_at(k, &ENDING_WORDS)
}

/// Whether the next token begins a direction.
#[tactic(auto, unfolding(crate::specs::Words::direction_words))]
pub(crate) fn direction_at(reader: &mut Reader) -> bool
    ensures { Begins result 0 (is_one_of direction_words ∷ []) reader.old reader.new }
{
    reader.one_of_at(0, &DIRECTION_WORDS)
}

/// Whether the next token is the word `processor`.
#[tactic(auto, unfolding(crate::specs::Words::processor_words))]
pub(crate) fn processor_at(reader: &mut Reader) -> bool
    ensures { Begins result 0 (is_one_of processor_words ∷ []) reader.old reader.new }
{
    reader.one_of_at(0, &PROCESSOR_WORDS)
}

/// Whether the next token begins an end of a connection.
#[tactic(auto, unfolding(crate::specs::Words::begins_end))]
pub(crate) fn end_at(reader: &mut Reader) -> bool
    ensures { Begins result 0 (begins_end ∷ []) reader.old reader.new }
{
    name_at(reader, 0) || processor_at(reader)
}

/// Whether a token is a word that ends a section that is read past.
#[tactic(auto, unfolding(crate::specs::Words::ending_words))]
pub(crate) fn is_ending(token: &TokenRef) -> bool
    ensures { result ≡ is_one_of ending_words (shown token.now) }
{
    is_one_of(token, &ENDING_WORDS)
}

/// Reads an identifier.
#[tactic(auto, unfolding(crate::specs::Names::core_name, crate::specs::Words::core_words))]
pub(crate) fn core_name(reader: &mut Reader) -> Result<Identifier, ReadError>
    ensures { Gives result core_name reader.old reader.new }
{
    reader.identifier(&CORE_WORDS)
}

/// Reads the word `processor`.
#[tactic(auto, unfolding(crate::specs::Words::processor_words))]
pub(crate) fn processor_name(reader: &mut Reader) -> Result<Identifier, ReadError>
    ensures { Gives result (one_of processor_words) reader.old reader.new }
{
    reader.one_of(&PROCESSOR_WORDS)
}

/// Reads a category of one word.
#[tactic(auto, unfolding(crate::specs::Words::category_words))]
pub(crate) fn category_word(reader: &mut Reader) -> Result<Identifier, ReadError>
    ensures { Gives result (one_of category_words) reader.old reader.new }
{
    reader.one_of(&CATEGORY_WORDS)
}

/// Reads a word behind which a category may have `group`.
#[tactic(auto, unfolding(crate::specs::Words::grouped_words))]
pub(crate) fn grouped_word(reader: &mut Reader) -> Result<Identifier, ReadError>
    ensures { Gives result (one_of grouped_words) reader.old reader.new }
{
    reader.one_of(&GROUPED_WORDS)
}

/// Reads the word `group`.
#[tactic(auto, unfolding(crate::specs::Words::group_words))]
pub(crate) fn group_word(reader: &mut Reader) -> Result<Identifier, ReadError>
    ensures { Gives result (one_of group_words) reader.old reader.new }
{
    reader.one_of(&GROUP_WORDS)
}

/// Reads the word `virtual`.
#[tactic(auto, unfolding(crate::specs::Words::virtual_words))]
pub(crate) fn virtual_word(reader: &mut Reader) -> Result<Identifier, ReadError>
    ensures { Gives result (one_of virtual_words) reader.old reader.new }
{
    reader.one_of(&VIRTUAL_WORDS)
}

/// Reads a word of a category that follows `virtual`.
#[tactic(auto, unfolding(crate::specs::Words::platform_words))]
pub(crate) fn platform_word(reader: &mut Reader) -> Result<Identifier, ReadError>
    ensures { Gives result (one_of platform_words) reader.old reader.new }
{
    reader.one_of(&PLATFORM_WORDS)
}

/// Reads the word of a section that is read past.
#[tactic(auto, unfolding(crate::specs::Words::skipped_words))]
pub(crate) fn skipped_word(reader: &mut Reader) -> Result<(), ReadError>
    ensures { Gives result (any_of skipped_words) reader.old reader.new }
{
    any_of(reader, &SKIPPED_WORDS)
}

/// Reads a word before `features` of a section that is read past.
#[tactic(auto, unfolding(crate::specs::Words::inner_words))]
pub(crate) fn inner_word(reader: &mut Reader) -> Result<(), ReadError>
    ensures { Gives result (any_of inner_words) reader.old reader.new }
{
    any_of(reader, &INNER_WORDS)
}

/// Reads one of these words, given in lower case.
#[tactic(auto, unfolding(crate::specs::Words::any_of))]
fn any_of(reader: &mut Reader, words: &[&[u8]]) -> Result<(), ReadError>
    ensures { Gives result (any_of (map (λ w. w.now) words.now)) reader.old reader.new }
{
    match reader.look(0) {
        Some(token) if is_one_of(&token, words) => {
            reader.step();
            Ok(())
        }
        _ => Err(ReadError::Refused),
    }
}

/// Reads this word, given in lower case, where it stands.
#[tactic(auto, unfolding(crate::specs::Words::optional_word))]
pub(crate) fn optional_word(reader: &mut Reader, text: &[u8]) -> Result<(), ReadError>
    ensures { Gives result (optional_word text.now) reader.old reader.new }
{
    if reader.word_at(0, text) {
        return reader.word(text);
    }
    Ok(())
}

/// Reads the first of two words, given in lower case, where it stands, and else the second.
#[tactic(auto, unfolding(crate::specs::Words::either_word))]
pub(crate) fn either_word(reader: &mut Reader, one: &[u8], other: &[u8]) -> Result<(), ReadError>
    ensures { Gives result (either_word one.now other.now) reader.old reader.new }
{
    if reader.word_at(0, one) {
        return reader.word(one);
    }
    reader.word(other)
}
