ghost use Rattle.std.specs.Prelude.{◌≡◌, ◌∷◌, ◌++◌, ◌+◌, ◌<◌, ◌^◌, [], length, slice_get, IfSome, OnOk, OnErr, MatchOption};
ghost use Rattle.std.specs.Option.{option_map};
ghost use Rattle.plain_values.specs.Name.{folded};
ghost use Rattle.aadl_syntax.specs.Token.{text_of, token_of};
ghost use Rattle.aadl_syntax.specs.inner.Token.{EndsWith, IsTokenText, shown};
ghost use Rattle.aadl_syntax.specs.inner.Marks.{Grows};

use crate::token::{TokenKind, TokenRef};
use plain_values::{Mem, lower};
use std::alloc::{AllocError, Global};
use std::marker::Model;

/// Where a token stands in the file, and where its text begins in the text of all tokens. Both are in bytes, from 0.
#[derive(Clone, Copy)]
pub(crate) struct Mark {
    pub(crate) kind: TokenKind,
    pub(crate) start: u32,
    pub(crate) end: u32,
    pub(crate) from: u32,
}

/// The tokens of a file, in order. Contracts see them as the list of its tokens.
///
/// Their texts stand in one text, and a token costs a mark of 16 bytes beside its text.
#[derive(Drop)]
pub struct TokenList {
    text: Vec<u8>,
    marks: Vec<Mark>,
}

impl Model for TokenList {
    ghost use Rattle.std.specs.Prelude.{List};
    ghost use Rattle.aadl_syntax.specs.declared.token.Token.{Token};

    ghost Value = { List Token };

    ghost use Rattle.aadl_syntax.specs.inner.Marks.{tokens_at, AreMarks};

    ghost view = { λ t. tokens_at t.text.items t.marks.items };

    ghost invariant = { λ t. AreMarks t.text.items t.marks.items };
}

impl TokenList {
    /// No tokens; it keeps the allocator and takes no memory.
    pub fn new(alloc: Global) -> TokenList
        ensures { result ≡ [] }
    {
        TokenList {
            text: Vec::new(alloc),
            marks: Vec::new(alloc),
        }
    }

    /// How many tokens there are.
    pub fn len(&self) -> usize
        ensures count { result ≡ length self.now }
        ensures few { length self.now < 2 ^ 32 }
    {
        self.marks.len()
    }

    /// The token of a number, from 0.
    pub fn get(&self, number: usize) -> Option<TokenRef<'_>>
        ensures value { option_map shown result ≡ slice_get self.now number }
        ensures form { IfSome result (λ token. IsTokenText token.kind token.text.now) }
        ensures extent { IfSome result (λ token. token.start + length token.text.now ≡ token.end) }
    {
        match self.marks.get(number) {
            Some(mark) => {
                let from = mark.from as usize;
                let to = from + (mark.end - mark.start) as usize;
                Some(TokenRef {
                    kind: mark.kind,
                    start: mark.start,
                    end: mark.end,
                    text: &self.text[from..to],
                })
            }
            None => None,
        }
    }

    /// The last token.
    pub fn last(&self) -> Option<TokenRef<'_>>
        ensures { MatchOption result (self.now ≡ []) (λ token. EndsWith self.now (shown token)) }
    {
        self.get(self.len().saturating_sub(1))
    }

    /// Adds the token of these bytes, the first of which is byte `at` of the file. Where memory is refused the tokens stay
    /// as they were.
    pub fn push(&mut self, kind: TokenKind, at: u32, bytes: &[u8]) -> Mem<()>
        requires fits { at + length bytes.now < 2 ^ 32 }
        requires form { IsTokenText kind (text_of kind bytes.now) }
        ensures ok { OnOk result (self.new ≡ self.old ++ token_of kind at bytes.now ∷ []) }
        ensures err { OnErr result (self.new ≡ self.old) }
    {
        let from = self.text.len();
        if from + bytes.len() >= 4_294_967_295 || self.marks.len() >= 4_294_967_295 {
            return Err(AllocError);
        }
        push_text(&mut self.text, kind, bytes)?;
        self.marks.push(Mark {
            kind,
            start: at,
            end: at + bytes.len() as u32,
            from: from as u32,
        })?;
        Ok(())
    }
}

/// Adds the text of a token of these bytes. Where memory is refused some of it may stand there, after what stood there before.
fn push_text(text: &mut Vec<u8>, kind: TokenKind, bytes: &[u8]) -> Mem<()>
    ensures ok { OnOk result (text.new.items ≡ text.old.items ++ text_of kind bytes.now) }
    ensures grown { Grows text.old.items text.new.items (length bytes.now) }
{
    if kind == TokenKind::Word {
        return push_folded(text, bytes);
    }
    push_plain(text, bytes)
}

fn push_folded(text: &mut Vec<u8>, bytes: &[u8]) -> Mem<()>
    ensures ok { OnOk result (text.new.items ≡ text.old.items ++ folded bytes.now) }
    ensures grown { Grows text.old.items text.new.items (length bytes.now) }
{
    for byte in bytes {
        text.push(lower(*byte))?;
    }
    Ok(())
}

fn push_plain(text: &mut Vec<u8>, bytes: &[u8]) -> Mem<()>
    ensures ok { OnOk result (text.new.items ≡ text.old.items ++ bytes.now) }
    ensures grown { Grows text.old.items text.new.items (length bytes.now) }
{
    text.extend_from_slice(bytes)?;
    Ok(())
}
