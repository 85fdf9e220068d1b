ghost use Rattle.std.specs.Prelude.{◌≡◌, ◌≤◌, MatchOption};
ghost use Rattle.aadl_syntax.specs.inner.Token.{shown};
ghost use Rattle.aadl_parser.specs.Nesting.{opens_bracket, closes_bracket, after_token, nesting_limit, IsShallow, NestedAt};

use aadl_syntax::{TokenList, TokenRef};
use grammar_rules::is_sign;

/// How many brackets may be open at once.
pub(crate) const NESTING_LIMIT: usize = 64;

/// The number of the first token at which more brackets are open than may be; tokens are numbered from 0.
pub(crate) fn too_nested_at(tokens: &TokenList) -> Option<usize>
    ensures { MatchOption result (IsShallow tokens.now) (λ number. NestedAt tokens.now number) }
{
    let mut count = 0;
    for k in 0..tokens.len() {
        let Some(token) = tokens.get(k) else {
            return None;
        };
        count = after_token(count, &token);
        if count > NESTING_LIMIT {
            return Some(k);
        }
    }
    None
}

/// How many brackets are open behind a token, of which so many are open before it.
fn after_token(count: usize, token: &TokenRef) -> usize
    requires { count ≤ nesting_limit }
    ensures { result ≡ after_token count (shown token.now) }
{
    if opens_bracket(token) {
        return count + 1;
    }
    if closes_bracket(token) {
        return count.saturating_sub(1);
    }
    count
}

#[tactic(auto, unfolding(crate::specs::Nesting::opens_bracket))]
fn opens_bracket(token: &TokenRef) -> bool
    ensures { result ≡ opens_bracket (shown token.now) }
{
    is_sign(token, b"(") || is_sign(token, b"[") || is_sign(token, b"{")
}

#[tactic(auto, unfolding(crate::specs::Nesting::closes_bracket))]
fn closes_bracket(token: &TokenRef) -> bool
    ensures { result ≡ closes_bracket (shown token.now) }
{
    is_sign(token, b")") || is_sign(token, b"]") || is_sign(token, b"}")
}
