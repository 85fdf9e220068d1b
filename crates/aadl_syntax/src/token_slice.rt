ghost use Rattle.std.specs.Prelude.{◌≡◌, ◌≤◌, ◌<◌, ◌^◌, ◌+◌, ◌++◌, ◌∷◌, [], length, take, drop, slice_get, IfOk, IfSome, OnOk};
ghost use Rattle.std.specs.Option.{option_map};
ghost use Rattle.aadl_syntax.specs.inner.Token.{IsTokenText, shown};

use crate::token::TokenRef;
use crate::tokens::TokenList;
use plain_values::Mem;
use std::alloc::Global;
use std::marker::Model;

/// Tokens of a list that stand one after the other. Contracts see them as the list of these.
#[derive(Drop)]
pub struct TokenSlice<'a> {
    tokens: &'a TokenList,
    from: usize,
    to: usize,
}

impl<'a> Model for TokenSlice<'a> {
    ghost use Rattle.std.specs.Prelude.{List, ◌≤◌, length};
    ghost use Rattle.std.specs.List.{between};
    ghost use Rattle.aadl_syntax.specs.declared.token.Token.{Token};

    ghost Value = { List Token };

    ghost view = { λ s. between s.from s.to s.tokens.now };

    ghost invariant = { λ s. (s.from ≤ s.to) × (s.to ≤ length s.tokens.now) };
}

impl<'a> TokenSlice<'a> {
    /// All tokens of a list.
    pub fn of(tokens: &'a TokenList) -> TokenSlice<'a>
        ensures { result ≡ tokens.now }
    {
        let to = tokens.len();
        TokenSlice {
            tokens,
            from: 0,
            to,
        }
    }

    /// How many tokens there are.
    pub fn len(&self) -> usize
        ensures count { result ≡ length self.now }
        ensures few { length self.now < 2 ^ 32 }
    {
        let _all = self.tokens.len();
        self.to - self.from
    }

    /// The token of a number, from 0.
    pub fn get(&self, number: usize) -> Option<TokenRef<'a>>
        ensures value { option_map shown result ≡ slice_get self.now number }
        ensures form { IfSome result (λ token. IsTokenText token.kind token.text.now) }
        ensures extent { IfSome result (λ token. token.start + length token.text.now ≡ token.end) }
    {
        if number >= self.to - self.from {
            return None;
        }
        self.tokens.get(self.from + number)
    }

    /// The first tokens, so many.
    pub fn front(&self, count: usize) -> TokenSlice<'a>
        requires { count ≤ length self.now }
        ensures { result ≡ take count self.now }
    {
        TokenSlice {
            tokens: self.tokens,
            from: self.from,
            to: self.from + count,
        }
    }

    /// The tokens behind the first, so many.
    pub fn rest(&self, count: usize) -> TokenSlice<'a>
        requires { count ≤ length self.now }
        ensures { result ≡ drop count self.now }
    {
        TokenSlice {
            tokens: self.tokens,
            from: self.from + count,
            to: self.to,
        }
    }

    /// A list of its own of these tokens.
    pub fn copied(&self, alloc: Global) -> Mem<TokenList>
        ensures { IfOk result (λ list. list ≡ self.now) }
    {
        let mut list = TokenList::new(alloc);
        for number in 0..self.len() {
            if let Some(token) = self.get(number) {
                add_copy(&mut list, &token)?;
            }
        }
        Ok(list)
    }
}

/// Adds a token as it stands in another list.
fn add_copy(list: &mut TokenList, token: &TokenRef) -> Mem<()>
    requires form { IsTokenText token.now.kind token.now.text.now }
    requires length { token.now.start + length token.now.text.now ≡ token.now.end }
    requires fits { token.now.end < 2 ^ 32 }
    ensures { OnOk result (list.new ≡ list.old ++ shown token.now ∷ []) }
{
    list.push(token.kind, token.start, token.text)
}
