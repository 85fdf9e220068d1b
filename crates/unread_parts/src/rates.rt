//! What the rates in core text are said of.

ghost use Rattle.std.specs.Prelude.{◌≡◌, ◌++◌, IfOk, None, OnOk, Some, option_map, option_to_list};
ghost use Rattle.aadl_syntax.specs.inner.Token.{shown};
ghost use Rattle.grammar_rules.specs.inner.Reader.{Gives};
ghost use Rattle.unread_parts.specs.Unread.{applied, applied_path, is_rate_name, joined, kept_text, said_of, told_rate};

use aadl_syntax::{TokenKind, TokenList, TokenRef, TokenSlice};
use grammar_rules::{ReadError, Reader, Span, is_sign, is_word};
use plain_values::{List, Mem, Name, copied, is_same};
use std::alloc::{AllocError, Global};

/// The tokens before the word `to` behind the word `applies`.
struct Applies;

impl Span for Applies {
    ghost use Rattle.unread_parts.specs.Unread.{ends_applies};

    ghost stops = { ends_applies };

    #[tactic(auto, unfolding(crate::specs::Unread::ends_applies))]
    fn stops_at(before: Option<TokenRef>, token: &TokenRef) -> bool {
        match before {
            Some(before) => is_word(&before, b"applies") && is_word(token, b"to"),
            None => false,
        }
    }
}

/// The tokens before the word `in`, or before a semicolon.
struct PathTokens;

impl Span for PathTokens {
    ghost use Rattle.unread_parts.specs.Unread.{ends_path};

    ghost stops = { ends_path };

    #[tactic(auto, unfolding(crate::specs::Unread::ends_path))]
    fn stops_at(_before: Option<TokenRef>, token: &TokenRef) -> bool {
        is_word(token, b"in") || is_sign(token, b";")
    }
}

/// What a piece whose property has this name is said of, where that is the property of rates.
pub(crate) fn told_rate(
    alloc: Global,
    braced: bool,
    member: &[u8],
    piece: &TokenList,
    name: &[u8],
) -> Mem<Option<Name>>
    ensures { IfOk result (λ told. option_to_list told ≡ told_rate braced member.now piece.now name.now) }
{
    if !is_rate_name(name) {
        return Ok(None);
    }
    let path = applied_path(alloc, piece)?;
    Ok(Some(said_of(alloc, braced, member, path)?))
}

/// Whether a property is that of rates by its name.
fn is_rate_name(name: &[u8]) -> bool
    ensures { result ≡ is_rate_name name.now }
{
    is_same(name, b"occurrencedistribution")
}

/// What a rate is said of that applies to this path, if it applies to any.
fn said_of(alloc: Global, braced: bool, member: &[u8], path: Option<Name>) -> Mem<Name>
    ensures { IfOk result (λ text. text ≡ said_of braced member.now path) }
{
    match path {
        Some(path) => said_of_path(alloc, braced, member, path),
        None => copied(alloc, said_of_none(braced, member)),
    }
}

fn said_of_none(braced: bool, member: &[u8]) -> &[u8]
    ensures { result.now ≡ said_of braced member.now None }
{
    if braced { member } else { b"-" }
}

fn said_of_path(alloc: Global, braced: bool, member: &[u8], path: Name) -> Mem<Name>
    ensures { IfOk result (λ text. text ≡ said_of braced member.now (Some path)) }
{
    if !braced {
        return Ok(path);
    }
    let mut text = Vec::new(alloc);
    text.extend_from_slice(member)?;
    text.extend_from_slice(b".")?;
    text.extend_from_slice(path.items())?;
    List::of(text)
}

/// The path that a piece applies to, or the paths with their commas, as they stand; if it applies to any.
fn applied_path(alloc: Global, piece: &TokenList) -> Mem<Option<Name>>
    ensures { IfOk result (λ path. path ≡ applied_path piece.now) }
{
    let mut reader = Reader::new(alloc, 0, piece);
    match applied(&mut reader) {
        Ok(tokens) => Ok(Some(joined(alloc, &tokens)?)),
        Err(ReadError::Refused) => Ok(None),
        Err(ReadError::Memory) => Err(AllocError),
    }
}

/// What stands behind `applies to`.
#[tactic(auto, unfolding(crate::specs::Unread::applied))]
fn applied<'a>(reader: &mut Reader<'a>) -> Result<TokenSlice<'a>, ReadError>
    ensures { Gives result applied reader.old reader.new }
{
    reader.until::<Applies>()?;
    reader.word(b"to")?;
    reader.until::<PathTokens>()
}

/// The texts of tokens, without blanks.
fn joined(alloc: Global, tokens: &TokenSlice) -> Mem<Name>
    ensures { IfOk result (λ text. text ≡ joined tokens.now) }
{
    let mut text = Vec::new(alloc);
    for number in 0..tokens.len() {
        push_token(&mut text, tokens.get(number))?;
    }
    List::of(text)
}

/// Adds the text of a token, if there is one.
fn push_token(text: &mut Vec<u8>, token: Option<TokenRef>) -> Mem<()>
    ensures { OnOk result (text.new.items ≡ text.old.items ++ joined (option_to_list (option_map shown token.entry))) }
{
    match token {
        Some(token) => {
            text.extend_from_slice(kept_text(&token))?;
            Ok(())
        }
        None => Ok(()),
    }
}

/// The text of a token; strings and the text of an annex, which may have lines, are left out.
fn kept_text<'a>(token: &TokenRef<'a>) -> &'a [u8]
    ensures { result.now ≡ kept_text token.now.kind token.now.text.now }
{
    match token.kind {
        TokenKind::Text | TokenKind::AnnexRaw => &[],
        TokenKind::Word
        | TokenKind::Number
        | TokenKind::Sign
        | TokenKind::AnnexBegin
        | TokenKind::AnnexEnd => token.text,
    }
}
