ghost use Rattle.std.specs.Prelude.{◌≡◌, ◌<◌, ◌≤◌, ◌&&◌, [], ◌∷◌, codes, take, drop, length, IfOk, IfSome, MatchOption};
ghost use Rattle.aadl_syntax.specs.inner.Token.{shown};
ghost use Rattle.grammar_rules.specs.Spans.{opens};
ghost use Rattle.grammar_rules.specs.Tokens.{is_sign};
ghost use Rattle.bindings.specs.Pieces.{behind_brace, section_pieces};

use aadl_syntax::{TokenKind, TokenList, TokenRef, TokenSlice};
use grammar_rules::{closes, is_sign};
use plain_values::{List, Mem};
use std::alloc::Global;

/// What stands behind the first opening brace of these tokens; nothing where there is none.
pub fn behind_brace(tokens: &TokenList) -> TokenSlice<'_>
    ensures { result ≡ behind_brace tokens.now }
{
    let mut left = TokenSlice::of(tokens);
    while let Some(token) = left.get(0) {
        left = left.rest(1);
        if is_sign(&token, b"{") {
            return left;
        }
    }
    left
}

/// The pieces of a section, each with the semicolon that ends it.
pub fn section_pieces(alloc: Global, tokens: TokenSlice) -> Mem<List<TokenList>>
    ensures { IfOk result (λ pieces. pieces ≡ section_pieces tokens.entry) }
{
    let mut left = tokens;
    let mut pieces = List::new(alloc);
    while let Some(count) = first_piece(&left) {
        pieces.push(left.front(count).copied(alloc)?)?;
        left = left.rest(count);
    }
    Ok(pieces)
}

/// How many tokens the first piece has, if there is one.
fn first_piece(tokens: &TokenSlice) -> Option<usize>
    ensures within { IfSome result (λ count. (0 < count) × (count ≤ length tokens.now)) }
    ensures piece { MatchOption result (section_pieces tokens.now ≡ []) (λ count. section_pieces tokens.now ≡ take count tokens.now ∷ section_pieces (drop count tokens.now)) }
{
    let mut opened: usize = 0;
    let mut closed: usize = 0;
    for k in 0..tokens.len() {
        let Some(token) = tokens.get(k) else {
            return None;
        };
        if ends(opened == closed, &token) {
            return Some(k + 1);
        }
        if opens(&token) {
            opened += 1;
        }
        if closes(&token) {
            closed += 1;
        }
    }
    None
}

/// Whether a token ends a piece, where as many brackets were opened as closed or not.
fn ends(even: bool, token: &TokenRef) -> bool
    ensures { result ≡ (even && is_sign (codes ";") (shown token.now)) }
{
    even && is_sign(token, b";")
}

/// Whether a token is an opening bracket.
#[tactic(auto, unfolding(grammar_rules::specs::Spans::opens, grammar_rules::specs::Tokens::is_kind))]
fn opens(token: &TokenRef) -> bool
    ensures { result ≡ opens (shown token.now) }
{
    is_sign(token, b"(")
        || is_sign(token, b"[")
        || is_sign(token, b"{")
        || token.kind == TokenKind::AnnexBegin
}
