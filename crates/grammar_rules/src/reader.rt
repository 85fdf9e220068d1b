ghost use Rattle.std.specs.Prelude.{◌≡◌, ◌+◌, length, slice_get, IfOk, IfSome, IsTrue, map, bytes_eq};
ghost use Rattle.std.specs.Option.{option_map};
ghost use Rattle.aadl_syntax.specs.declared.token.TokenKind.TheVariants.{Word};
ghost use Rattle.aadl_syntax.specs.inner.Token.{IsTokenText, shown};
ghost use Rattle.std.specs.List.{list_any};
ghost use Rattle.grammar_rules.specs.inner.Reader.{Gives};
ghost use Rattle.grammar_rules.specs.Tokens.{is_kind, is_word, is_sign, is_identifier, is_one_of, spot};

use aadl_syntax::{Identifier, TokenKind, TokenList, TokenRef, TokenSlice};
use plain_values::{Mem, Spot};
use std::alloc::{AllocError, Global};

/// Why a reading stopped.
#[derive(Clone, Copy, PartialEq, Eq)]
pub enum ReadError {
    /// The tokens do not read so.
    Refused,
    /// Memory was wanting.
    Memory,
}

impl From<AllocError> for ReadError {
    ghost use Rattle.grammar_rules.specs.declared.reader.ReadError.TheVariants.{Memory};

    ghost from_gives = { λ _ e. e ≡ Memory };

    fn from(_e: AllocError) -> ReadError {
        ReadError::Memory
    }
}

/// The tokens of a file that are still to be read, and how many of these and the end no call has looked at.
///
/// A call that refuses has taken no token of its own; a reader is not read on with after an error.
#[derive(Drop)]
pub struct Reader<'a> {
    alloc: Global,
    file: u32,
    pub(crate) tokens: TokenSlice<'a>,
    unseen: usize,
}

impl<'a> Reader<'a> {
    ghost use Rattle.std.specs.Prelude.{[], ◌∷◌};
    ghost use Rattle.grammar_rules.specs.Rules.{ends};
    ghost use Rattle.grammar_rules.specs.inner.Reader.{Gives, Begins, LooksAt, Steps};
    ghost use Rattle.grammar_rules.specs.Tokens.{kind, word, sign, identifier, one_of, place};

    /// A reader before the first of these tokens, none of which it has looked at; files are numbered from 0.
    pub fn new(alloc: Global, file: u32, tokens: &'a TokenList) -> Reader<'a>
        ensures file { result.file ≡ file }
        ensures tokens { result.tokens ≡ tokens.now }
        ensures unseen { result.unseen ≡ length tokens.now + 1 }
    {
        Reader {
            alloc,
            file,
            tokens: TokenSlice::of(tokens),
            unseen: tokens.len() + 1,
        }
    }

    /// The allocator.
    pub fn alloc(&self) -> Global
        ensures { result ≡ self.now.alloc }
    {
        self.alloc
    }

    /// The number of the file.
    pub fn file(&self) -> u32
        ensures { result ≡ self.now.file }
    {
        self.file
    }

    /// How many of the tokens that are left and the end no call has looked at.
    pub fn unseen(&self) -> usize
        ensures { result ≡ self.now.unseen }
    {
        self.unseen
    }

    /// Looks at the token `k` places ahead; `None` is the end. Call it for a place only once those before it are looked at.
    pub fn look(&mut self, k: usize) -> Option<TokenRef<'a>>
        ensures looks { LooksAt k self.old self.new }
        ensures value { option_map shown result ≡ slice_get self.old.tokens k }
        ensures form { IfSome result (λ token. IsTokenText token.kind token.text.now) }
    {
        self.unseen = self.unseen.min(self.tokens.len().saturating_sub(k));
        self.tokens.get(k)
    }

    /// Goes past the next token, if there is one. Call it only once that token is looked at.
    pub fn step(&mut self)
        ensures { Steps self.old self.new }
    {
        if self.tokens.len() > 0 {
            self.tokens = self.tokens.rest(1);
        }
    }

    /// Whether the token `k` places ahead is of this kind.
    pub fn kind_at(&mut self, k: usize, expected: TokenKind) -> bool
        ensures { Begins result k (is_kind expected ∷ []) self.old self.new }
    {
        match self.look(k) {
            Some(token) => is_kind(&token, expected),
            None => false,
        }
    }

    /// Whether the token `k` places ahead is this word, given in lower case.
    pub fn word_at(&mut self, k: usize, text: &[u8]) -> bool
        ensures { Begins result k (is_word text.now ∷ []) self.old self.new }
    {
        match self.look(k) {
            Some(token) => is_word(&token, text),
            None => false,
        }
    }

    /// Whether the token `k` places ahead is this sign.
    pub fn sign_at(&mut self, k: usize, text: &[u8]) -> bool
        ensures { Begins result k (is_sign text.now ∷ []) self.old self.new }
    {
        match self.look(k) {
            Some(token) => is_sign(&token, text),
            None => false,
        }
    }

    /// Whether the token `k` places ahead is a word that is none of the reserved ones.
    pub fn identifier_at(&mut self, k: usize, reserved: &[&[u8]]) -> bool
        ensures { Begins result k (is_identifier (map (λ w. w.now) reserved.now) ∷ []) self.old self.new }
    {
        match self.look(k) {
            Some(token) => is_identifier(&token, reserved),
            None => false,
        }
    }

    /// Whether the token `k` places ahead is one of these words, given in lower case.
    pub fn one_of_at(&mut self, k: usize, words: &[&[u8]]) -> bool
        ensures { Begins result k (is_one_of (map (λ w. w.now) words.now) ∷ []) self.old self.new }
    {
        match self.look(k) {
            Some(token) => is_one_of(&token, words),
            None => false,
        }
    }

    /// Takes a token of this kind.
    #[tactic(auto, unfolding(crate::specs::Tokens::kind))]
    pub fn kind(&mut self, expected: TokenKind) -> Result<(), ReadError>
        ensures { Gives result (kind expected) self.old self.new }
    {
        if !self.kind_at(0, expected) {
            return Err(ReadError::Refused);
        }
        self.step();
        Ok(())
    }

    /// Takes this word, given in lower case.
    #[tactic(auto, unfolding(crate::specs::Tokens::word))]
    pub fn word(&mut self, text: &[u8]) -> Result<(), ReadError>
        ensures { Gives result (word text.now) self.old self.new }
    {
        if !self.word_at(0, text) {
            return Err(ReadError::Refused);
        }
        self.step();
        Ok(())
    }

    /// Takes this sign.
    #[tactic(auto, unfolding(crate::specs::Tokens::sign))]
    pub fn sign(&mut self, text: &[u8]) -> Result<(), ReadError>
        ensures { Gives result (sign text.now) self.old self.new }
    {
        if !self.sign_at(0, text) {
            return Err(ReadError::Refused);
        }
        self.step();
        Ok(())
    }

    /// Takes a word that is none of the reserved ones, and gives a copy of its text.
    #[tactic(auto, unfolding(crate::specs::Tokens::identifier))]
    pub fn identifier(&mut self, reserved: &[&[u8]]) -> Result<Identifier, ReadError>
        ensures { Gives result (identifier (map (λ w. w.now) reserved.now)) self.old self.new }
    {
        match self.look(0) {
            Some(token) if is_identifier(&token, reserved) => {
                self.step();
                Ok(copy_of(self.alloc, &token)?)
            }
            _ => Err(ReadError::Refused),
        }
    }

    /// Takes one of these words, given in lower case, and gives a copy of it.
    #[tactic(auto, unfolding(crate::specs::Tokens::one_of))]
    pub fn one_of(&mut self, words: &[&[u8]]) -> Result<Identifier, ReadError>
        ensures { Gives result (one_of (map (λ w. w.now) words.now)) self.old self.new }
    {
        match self.look(0) {
            Some(token) if is_one_of(&token, words) => {
                self.step();
                Ok(copy_of(self.alloc, &token)?)
            }
            _ => Err(ReadError::Refused),
        }
    }

    /// Where the next token starts: the number of its first byte in the file, from 0. Refused at the end.
    #[tactic(auto, unfolding(crate::specs::Tokens::place))]
    pub fn place(&mut self) -> Result<u32, ReadError>
        ensures { Gives result place self.old self.new }
    {
        match self.look(0) {
            Some(token) => Ok(token.start),
            None => Err(ReadError::Refused),
        }
    }

    /// Reads the end of the tokens.
    pub fn end(&mut self) -> Result<(), ReadError>
        ensures { Gives result ends self.old self.new }
    {
        match self.look(0) {
            None => Ok(()),
            Some(_) => Err(ReadError::Refused),
        }
    }
}

#[tactic(auto, unfolding(crate::specs::Tokens::is_kind))]
pub(crate) fn is_kind(token: &TokenRef, kind: TokenKind) -> bool
    ensures { result ≡ is_kind kind (shown token.now) }
{
    token.kind == kind
}

/// Whether a token is this word, given in lower case.
#[tactic(auto, unfolding(crate::specs::Tokens::is_word))]
pub fn is_word(token: &TokenRef, text: &[u8]) -> bool
    ensures { result ≡ is_word text.now (shown token.now) }
{
    token.kind == TokenKind::Word && token.text == text
}

/// Whether a token is this sign.
#[tactic(auto, unfolding(crate::specs::Tokens::is_sign))]
pub fn is_sign(token: &TokenRef, text: &[u8]) -> bool
    ensures { result ≡ is_sign text.now (shown token.now) }
{
    token.kind == TokenKind::Sign && token.text == text
}

#[tactic(auto, unfolding(crate::specs::Tokens::is_identifier))]
fn is_identifier(token: &TokenRef, reserved: &[&[u8]]) -> bool
    ensures value { result ≡ is_identifier (map (λ w. w.now) reserved.now) (shown token.now) }
    ensures word { IsTrue result → token.now.kind ≡ Word }
{
    token.kind == TokenKind::Word && !is_among(token.text, reserved)
}

/// Whether a token is one of these words, given in lower case.
#[tactic(auto, unfolding(crate::specs::Tokens::is_one_of))]
pub fn is_one_of(token: &TokenRef, words: &[&[u8]]) -> bool
    ensures value { result ≡ is_one_of (map (λ w. w.now) words.now) (shown token.now) }
    ensures word { IsTrue result → token.now.kind ≡ Word }
{
    token.kind == TokenKind::Word && is_among(token.text, words)
}

/// A copy of the text of a word.
fn copy_of(alloc: Global, token: &TokenRef) -> Mem<Identifier>
    requires word { token.now.kind ≡ Word }
    requires form { IsTokenText token.now.kind token.now.text.now }
    ensures { IfOk result (λ identifier. identifier ≡ token.now.text.now) }
{
    Identifier::of(alloc, token.text)
}

fn is_among(text: &[u8], words: &[&[u8]]) -> bool
    ensures { result ≡ list_any (λ w. bytes_eq text.now w.now) words.now }
{
    words.iter().any(|word| text == *word)
}

/// The place of the next token; refused at the end.
#[tactic(auto, unfolding(crate::specs::Tokens::spot))]
pub fn spot(reader: &mut Reader) -> Result<Spot, ReadError>
    ensures { Gives result spot reader.old reader.new }
{
    let file = reader.file();
    let at = reader.place()?;
    Ok(Spot { file, at })
}
