//! The tokens of a whole file.

ghost use Rattle.std.specs.Prelude.{◌≡◌, ℕ, List, ◌<◌, ◌≤◌, ◌+◌, ◌++◌, ◌∷◌, [], length, take, true, false, IsTrue, IfOk, IfErr, IfSome, IfNone, OnOk, MatchResult};
ghost use Rattle.aadl_lexer.specs.Tokens.{Tokens, IsFault, RefusedAs, InCore, InAnnex, StuckInCore, StuckInAnnex, IsPlain, IsAnnex, StopsReading, AfterEmv2, tokens_of, annex_begin, annex_end};
ghost use Rattle.aadl_syntax.specs.declared.token.Token.{Token};
ghost use Rattle.plain_values.specs.declared.refusal.Stop.TheVariants.{Refused, Memory};
ghost use Rattle.plain_values.specs.declared.refusal.Place.TheVariants.{At};
ghost use Rattle.plain_values.specs.Refusal.{refusal};
ghost use Rattle.aadl_lexer.specs.inner.Scan.{IsFront};
ghost use Rattle.aadl_syntax.specs.Token.{text_of, token_of};
ghost use Rattle.aadl_syntax.specs.inner.Token.{IsTokenText};
ghost use Rattle.aadl_lexer.specs.inner.Steps.{Takes, TakesAll, TakesBody, EndsAt, StuckAt, HasTokenText, begins_annex_end};

use crate::form::{Front, front_of};
use aadl_syntax::{TokenKind, TokenList};
use plain_values::{Answer, Code, Refusal, Spot, Stop, is_same};
use std::alloc::Global;

/// The tokens of the file of this number, in order. Places are in bytes, from 0.
///
/// A byte that begins no token is refused as `BadByte`, a quoted text that does not end as `OpenString` at its quote, and an
/// annex that does not end as `OpenAnnex` at its `{**`; the first of these places in the file is named.
pub fn tokens(alloc: Global, file: u32, bytes: &[u8]) -> Answer<TokenList>
    requires { length bytes.now ≤ 4194304 }

    // What is answered are the file's tokens.
    ensures found { IfOk result (λ list. Tokens bytes.now list) }

    // A refusal names the one fault of the bytes, which have no tokens then.
    ensures refused { IfErr result (λ stop. RefusedAs file (IsFault bytes.now) stop) }

    // Tokens that the bytes have are answered, unless memory runs out.
    ensures only { (list : List Token) → Tokens bytes.now list → MatchResult result (λ found. found ≡ list) (λ stop. stop ≡ Memory) }
{
    let mut list = TokenList::new(alloc);
    let mut at = 0;
    while at < bytes.len() {
        at += core_piece(file, at, &bytes[at..], &mut list)?;
    }
    Ok(list)
}

/// Takes the piece of core text at the front, and says how long it is.
fn core_piece(file: u32, at: usize, text: &[u8], list: &mut TokenList) -> Answer<usize>
    requires some { 0 < length text.now }
    requires fits { at + length text.now ≤ 4194304 }
    ensures ok { IfOk result (λ len. Takes (InCore list.old at) text.now list.old list.new len) }
    ensures err { IfErr result (λ stop. RefusedAs file (StuckInCore list.old at text.now) stop) }
{
    let front = front_at(file, at, true, text)?;
    if let Some(TokenKind::AnnexBegin) = front.kind {
        return annex(file, at, text, list);
    }
    take_front(at, text, front, list)?;
    Ok(front.len)
}

/// Takes the annex at the front, and says how long it is.
fn annex(file: u32, at: usize, text: &[u8], list: &mut TokenList) -> Answer<usize>
    requires long { 3 ≤ length text.now }
    requires opens { take 3 text.now ≡ annex_begin }
    requires fits { at + length text.now ≤ 4194304 }
    ensures ok { IfOk result (λ len. Takes (IsAnnex list.old at) text.now list.old list.new len) }
    ensures err { IfErr result (λ stop. RefusedAs file (StuckInCore list.old at text.now) stop) }
{
    let after = &text[3..];
    let Some(len) = end_of(after) else {
        return Err(refused(file, at, Code::OpenAnnex));
    };
    let is_emv2 = ends_in_emv2(list);
    add(list, TokenKind::AnnexBegin, at, b"{**")?;
    annex_body(file, at + 3, &after[..len], is_emv2, list)?;
    add(list, TokenKind::AnnexEnd, at + 3 + len, b"**}")?;
    Ok(len + 6)
}

/// Takes the body of an annex: the tokens of the text of an error model annex, or one raw token.
fn annex_body(file: u32, at: usize, body: &[u8], is_emv2: bool, list: &mut TokenList) -> Answer<()>
    requires { at + length body.now ≤ 4194304 }
    ensures ok { OnOk result (TakesBody is_emv2 at body.now list.old list.new) }
    ensures err { IfErr result (λ stop. RefusedAs file (λ code place. IsTrue is_emv2 × StopsReading InAnnex StuckInAnnex at body.now code place) stop) }
{
    if is_emv2 {
        annex_tokens(file, at, body, list)
    } else {
        add(list, TokenKind::AnnexRaw, at, body)
    }
}

/// Takes the tokens of the text of an error model annex.
fn annex_tokens(file: u32, at: usize, text: &[u8], list: &mut TokenList) -> Answer<()>
    requires { at + length text.now ≤ 4194304 }
    ensures ok { OnOk result (TakesAll InAnnex at text.now list.old list.new) }
    ensures err { IfErr result (λ stop. RefusedAs file (StopsReading InAnnex StuckInAnnex at text.now) stop) }
{
    let mut done = 0;
    while done < text.len() {
        done += annex_piece(file, at + done, &text[done..], list)?;
    }
    Ok(())
}

/// Takes the piece at the front of the text of an error model annex, and says how long it is.
fn annex_piece(file: u32, at: usize, text: &[u8], list: &mut TokenList) -> Answer<usize>
    requires some { 0 < length text.now }
    requires fits { at + length text.now ≤ 4194304 }
    ensures ok { IfOk result (λ len. Takes (IsPlain false at) text.now list.old list.new len) }
    ensures err { IfErr result (λ stop. RefusedAs file (StuckAt false at text.now) stop) }
{
    let front = front_at(file, at, false, text)?;
    take_front(at, text, front, list)?;
    Ok(front.len)
}

/// What stands at the front of a text, or the refusal of the byte there.
fn front_at(file: u32, at: usize, annexes: bool, text: &[u8]) -> Answer<Front>
    requires some { 0 < length text.now }
    requires fits { at + length text.now ≤ 4194304 }
    ensures ok { IfOk result (λ front. IsFront annexes text.now front) }
    ensures err { IfErr result (λ stop. RefusedAs file (StuckAt annexes at text.now) stop) }
{
    match front_of(annexes, text) {
        Ok(front) => Ok(front),
        Err(code) => Err(refused(file, at, code)),
    }
}

/// Adds the token of what stands at the front, where it is no blank and no comment.
fn take_front(at: usize, text: &[u8], front: Front, list: &mut TokenList) -> Answer<()>
    requires within { front.len ≤ length text.now }
    requires fits { at + length text.now ≤ 4194304 }
    requires form { HasTokenText front.kind (take front.len text.now) }
    ensures ok { OnOk result (list.new ≡ list.old ++ tokens_of front.kind at (take front.len text.now)) }
    ensures err { IfErr result (λ stop. stop ≡ Memory) }
{
    match front.kind {
        None => Ok(()),
        Some(kind) => add(list, kind, at, &text[..front.len]),
    }
}

/// Adds the token of these bytes, the first of which is byte `at` of the file.
fn add(list: &mut TokenList, kind: TokenKind, at: usize, bytes: &[u8]) -> Answer<()>
    requires fits { at + length bytes.now ≤ 4194304 }
    requires form { IsTokenText kind (text_of kind bytes.now) }
    ensures ok { OnOk result (list.new ≡ list.old ++ token_of kind at bytes.now ∷ []) }
    ensures err { IfErr result (λ stop. stop ≡ Memory) }
{
    match list.push(kind, at as u32, bytes) {
        Ok(()) => Ok(()),
        Err(_) => Err(Stop::Memory),
    }
}

/// Where the first `**}` stands.
fn end_of(text: &[u8]) -> Option<usize>
    ensures found { IfSome result (λ len. EndsAt text.now len) }
    ensures none { IfNone result ((front back : List ℕ) → text.now ≡ front ++ (annex_end ++ back) → ⊥) }
{
    for at in 0..text.len() {
        if begins_annex_end(&text[at..]) {
            return Some(at);
        }
    }
    None
}

fn begins_annex_end(text: &[u8]) -> bool
    ensures { result ≡ begins_annex_end text.now }
{
    match text {
        [a, b, c, ..] => *a == b'*' && *b == b'*' && *c == b'}',
        _ => false,
    }
}

/// Whether the last token is the word `emv2`.
fn ends_in_emv2(tokens: &TokenList) -> bool
    ensures yes { IsTrue result → AfterEmv2 tokens.now }
    ensures no { AfterEmv2 tokens.now → IsTrue result }
{
    match tokens.last() {
        Some(last) => last.kind == TokenKind::Word && is_same(last.text, b"emv2"),
        None => false,
    }
}

fn refused(file: u32, at: usize, code: Code) -> Stop
    requires { at ≤ 4194304 }
    ensures { result ≡ Refused (refusal code (At file at)) }
{
    let at = at as u32;
    Stop::Refused(Refusal::at(code, Spot { file, at }))
}
