ghost use Rattle.std.specs.Prelude.{◌≡◌, ◌||◌};
ghost use Rattle.std.specs.Option.{option_map};
ghost use Rattle.aadl_syntax.specs.inner.Token.{shown};
ghost use Rattle.grammar_rules.specs.inner.Reader.{Gives};
ghost use Rattle.grammar_rules.specs.Spans.{until, ends_tail};
ghost use Rattle.aadl_parser.specs.Runs.{begins_item, ends_past, past, array_place, ends_front, tail_rest, array_tail, kept_tail, bindings_place, parenthesised, bindings, in_modes};

use crate::words::is_ending;
use aadl_syntax::{TokenList, TokenRef};
use grammar_rules::{Balanced, ReadError, Reader, Span, Tail, closes, is_sign, spot, tail_end};
use plain_values::Spot;

// The tokens of a section that are read past.
struct SkippedTokens;

impl Span for SkippedTokens {
    ghost use Rattle.aadl_parser.specs.Runs.{ends_past};

    ghost stops = { ends_past };

    #[tactic(auto, unfolding(crate::specs::Runs::ends_past))]
    fn stops_at(before: Option<TokenRef>, token: &TokenRef) -> bool {
        item_begins(before) && is_ending(token)
    }
}

fn item_begins(before: Option<TokenRef>) -> bool
    ensures { result ≡ begins_item (option_map shown before.entry) }
{
    match before {
        Some(token) => is_sign(&token, b";"),
        None => true,
    }
}

// The front of a tail, before the `[` of an array.
struct Front;

impl Span for Front {
    ghost use Rattle.aadl_parser.specs.Runs.{ends_front};

    ghost stops = { ends_front };

    #[tactic(auto, unfolding(crate::specs::Runs::ends_front))]
    fn stops_at(_before: Option<TokenRef>, token: &TokenRef) -> bool {
        closes(token) || is_sign(token, b";") || is_sign(token, b"[")
    }
}

/// Goes past the rest of a section.
#[tactic(auto, unfolding(crate::specs::Runs::past))]
pub(crate) fn past(reader: &mut Reader) -> Result<(), ReadError>
    ensures { Gives result past reader.old reader.new }
{
    reader.until::<SkippedTokens>()?;
    Ok(())
}

/// Copies the tokens of the rest of a section.
pub(crate) fn section_tokens(reader: &mut Reader) -> Result<TokenList, ReadError>
    ensures { Gives result (until ends_past) reader.old reader.new }
{
    let tokens = reader.until::<SkippedTokens>()?;
    Ok(tokens.copied(reader.alloc())?)
}

#[tactic(auto, unfolding(crate::specs::Runs::array_place))]
fn array_place(reader: &mut Reader) -> Result<Option<Spot>, ReadError>
    ensures { Gives result array_place reader.old reader.new }
{
    if reader.sign_at(0, b"[") {
        return Ok(Some(spot(reader)?));
    }
    Ok(None)
}

/// Copies the tokens of a tail before its first `[` outside of brackets, or before its semicolon.
pub(crate) fn tail_front(reader: &mut Reader) -> Result<TokenList, ReadError>
    ensures { Gives result (until ends_front) reader.old reader.new }
{
    let tokens = reader.until::<Front>()?;
    Ok(tokens.copied(reader.alloc())?)
}

/// Reads the rest of a tail, up to its semicolon, and gives the place of the `[` with which it begins.
#[tactic(auto, unfolding(crate::specs::Runs::tail_rest))]
pub(crate) fn tail_rest(reader: &mut Reader) -> Result<Option<Spot>, ReadError>
    ensures { Gives result tail_rest reader.old reader.new }
{
    let array = array_place(reader)?;
    tail_end(reader)?;
    Ok(array)
}

/// Reads the rest of a member, up to its semicolon, and gives the place of the first `[` outside of brackets.
#[tactic(auto, unfolding(crate::specs::Runs::array_tail))]
pub(crate) fn array_tail(reader: &mut Reader) -> Result<Option<Spot>, ReadError>
    ensures { Gives result array_tail reader.old reader.new }
{
    reader.until::<Front>()?;
    tail_rest(reader)
}

/// Reads the rest of a member, up to its semicolon, and copies its tokens.
#[tactic(auto, unfolding(crate::specs::Runs::kept_tail))]
pub(crate) fn kept_tail(reader: &mut Reader) -> Result<TokenList, ReadError>
    ensures { Gives result kept_tail reader.old reader.new }
{
    let tokens = tail_tokens(reader)?;
    reader.sign(b";")?;
    Ok(tokens)
}

fn tail_tokens(reader: &mut Reader) -> Result<TokenList, ReadError>
    ensures { Gives result (until ends_tail) reader.old reader.new }
{
    let tokens = reader.until::<Tail>()?;
    Ok(tokens.copied(reader.alloc())?)
}

/// The place of a `(`, if it is the next token.
#[tactic(auto, unfolding(crate::specs::Runs::bindings_place))]
pub(crate) fn bindings_place(reader: &mut Reader) -> Result<Option<Spot>, ReadError>
    ensures { Gives result bindings_place reader.old reader.new }
{
    if reader.sign_at(0, b"(") {
        return Ok(Some(spot(reader)?));
    }
    Ok(None)
}

#[tactic(auto, unfolding(crate::specs::Runs::parenthesised))]
fn parenthesised(reader: &mut Reader) -> Result<(), ReadError>
    ensures { Gives result parenthesised reader.old reader.new }
{
    reader.sign(b"(")?;
    reader.until::<Balanced>()?;
    reader.sign(b")")
}

/// Reads parentheses and what stands in them, where a `(` stands, and gives its place.
#[tactic(auto, unfolding(crate::specs::Runs::bindings))]
pub(crate) fn bindings(reader: &mut Reader) -> Result<Option<Spot>, ReadError>
    ensures { Gives result bindings reader.old reader.new }
{
    if reader.sign_at(0, b"(") {
        let spot = spot(reader)?;
        parenthesised(reader)?;
        return Ok(Some(spot));
    }
    Ok(None)
}

/// Reads an `in modes`, where it stands.
#[tactic(auto, unfolding(crate::specs::Runs::in_modes))]
pub(crate) fn in_modes(reader: &mut Reader) -> Result<(), ReadError>
    ensures { Gives result in_modes reader.old reader.new }
{
    if reader.word_at(0, b"in") {
        reader.word(b"in")?;
        reader.word(b"modes")?;
        return parenthesised(reader);
    }
    Ok(())
}
