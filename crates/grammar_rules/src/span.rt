ghost use Rattle.std.specs.Prelude.{◌≡◌, ℕ, [], ◌<◌, ◌&&◌, ◌||◌, length, take, drop, IfSome, MatchOption};
ghost use Rattle.aadl_syntax.specs.declared.token.TokenKind.TheVariants.{AnnexEnd};
ghost use Rattle.std.specs.Option.{option_map};
ghost use Rattle.aadl_syntax.specs.inner.Token.{shown};
ghost use Rattle.grammar_rules.specs.Tokens.{is_kind};
ghost use Rattle.grammar_rules.specs.Running.{spanned, read, dead, seen};
ghost use Rattle.grammar_rules.specs.inner.Reader.{Gives};
ghost use Rattle.grammar_rules.specs.Spans.{opens, closes, stopping, tail_end, tail_end_inside};

use crate::reader::{ReadError, Reader, is_kind, is_sign, is_word};
use aadl_syntax::{TokenKind, TokenRef, TokenSlice};

/// Where a run of tokens ends whose text does not matter: at a token at depth 0, that is where as many brackets were
/// opened as closed in the run. Round, square and curly brackets and the marks of an annex count alike.
pub trait Span {
    ghost use Rattle.std.specs.Prelude.{Option, Bool};
    ghost use Rattle.std.specs.Option.{option_map};
    ghost use Rattle.aadl_syntax.specs.inner.Token.{shown};
    ghost use Rattle.aadl_syntax.specs.declared.token.Token.{Token};

    ghost stops: { Option Token → Token → Bool };

    /// Whether the run ends before this token at depth 0; `before` is the last token of the run, if it has any.
    fn stops_at(before: Option<TokenRef>, token: &TokenRef) -> bool
        ensures { result ≡ stops (option_map shown before.entry) (shown token.now) };
}

/// Tokens with matching counts of brackets: up to the bracket that closes one opened before them.
pub struct Balanced;

impl Span for Balanced {
    ghost use Rattle.grammar_rules.specs.Spans.{ends_balanced};

    ghost stops = { ends_balanced };

    #[tactic(auto, unfolding(crate::specs::Spans::ends_balanced))]
    fn stops_at(_before: Option<TokenRef>, token: &TokenRef) -> bool {
        closes(token)
    }
}

/// Balanced tokens without a semicolon at depth 0.
pub struct Tail;

impl Span for Tail {
    ghost use Rattle.grammar_rules.specs.Spans.{ends_tail};

    ghost stops = { ends_tail };

    #[tactic(auto, unfolding(crate::specs::Spans::ends_tail))]
    fn stops_at(_before: Option<TokenRef>, token: &TokenRef) -> bool {
        closes(token) || is_sign(token, b";")
    }
}

/// Tokens up to the first word `end` at depth 0; the depth may fall below 0, and `end` does not count there.
pub struct ToEnd;

impl Span for ToEnd {
    ghost use Rattle.grammar_rules.specs.Spans.{ends_to_end};

    ghost stops = { ends_to_end };

    #[tactic(auto, unfolding(crate::specs::Spans::ends_to_end))]
    fn stops_at(_before: Option<TokenRef>, token: &TokenRef) -> bool {
        is_word(token, b"end")
    }
}

impl<'a> Reader<'a> {
    ghost use Rattle.std.specs.Prelude.{true, false};
    ghost use Rattle.grammar_rules.specs.Spans.{until, until_inside, stopping};
    ghost use Rattle.grammar_rules.specs.Rules.{spans};
    ghost use Rattle.grammar_rules.specs.inner.Reader.{Gives};

    /// Takes the tokens of a run of core text, perhaps none. Without a token that ends it, the run is refused at the end.
    #[tactic(auto, unfolding(crate::specs::Spans::until))]
    pub fn until<S: Span>(&mut self) -> Result<TokenSlice<'a>, ReadError>
        ensures { Gives result (until S.stops) self.old self.new }
    {
        self.run_of::<S>(false)
    }

    /// Takes the tokens of a run inside of an annex, perhaps none: the end of the annex ends it, whatever is open. Without
    /// a token that ends it, the run is refused at the end.
    #[tactic(auto, unfolding(crate::specs::Spans::until_inside))]
    pub fn until_inside<S: Span>(&mut self) -> Result<TokenSlice<'a>, ReadError>
        ensures { Gives result (until_inside S.stops) self.old self.new }
    {
        self.run_of::<S>(true)
    }

    fn run_of<S: Span>(&mut self, inside: bool) -> Result<TokenSlice<'a>, ReadError>
        ensures { Gives result (spans (stopping inside S.stops)) self.old self.new }
    {
        match length_until::<S>(&self.tokens, inside) {
            Some(length) => {
                self.look(length);
                let passed = self.tokens.front(length);
                self.tokens = self.tokens.rest(length);
                Ok(passed)
            }
            None => {
                let all = self.tokens.len();
                self.look(all);
                Err(ReadError::Refused)
            }
        }
    }
}

fn length_until<S: Span>(tokens: &TokenSlice, inside: bool) -> Option<usize>
    ensures within { IfSome result (λ n. n < length tokens.now) }
    ensures run { MatchOption result
        ((unseen : ℕ) → spanned (stopping inside S.stops) [] tokens.now unseen ≡ dead 0)
        (λ n. (unseen : ℕ) → spanned (stopping inside S.stops) [] tokens.now unseen
        ≡ read (take n tokens.now) (drop n tokens.now) (seen n tokens.now unseen)) }
{
    let mut opened: usize = 0;
    let mut closed: usize = 0;
    let mut before: Option<TokenRef> = None;
    for k in 0..tokens.len() {
        let Some(token) = tokens.get(k) else {
            return None;
        };
        if stops::<S>(inside, opened == closed, before, &token) {
            return Some(k);
        }
        if opens(&token) {
            opened += 1;
        }
        if closes(&token) {
            closed += 1;
        }
        before = Some(token);
    }
    None
}

/// Whether a run ends before this token, where as many brackets were opened as closed or not.
fn stops<S: Span>(inside: bool, even: bool, before: Option<TokenRef>, token: &TokenRef) -> bool
    ensures { result ≡ ((inside && is_kind AnnexEnd (shown token.now)) || (even && S.stops (option_map shown before.entry) (shown token.now))) }
{
    (inside && is_kind(token, TokenKind::AnnexEnd)) || (even && S::stops_at(before, token))
}

#[tactic(auto, unfolding(crate::specs::Spans::opens))]
fn opens(token: &TokenRef) -> bool
    ensures { result ≡ opens (shown token.now) }
{
    is_sign(token, b"(")
        || is_sign(token, b"[")
        || is_sign(token, b"{")
        || is_kind(token, TokenKind::AnnexBegin)
}

/// Whether a token is a closing bracket.
#[tactic(auto, unfolding(crate::specs::Spans::closes))]
pub fn closes(token: &TokenRef) -> bool
    ensures { result ≡ closes (shown token.now) }
{
    is_sign(token, b")")
        || is_sign(token, b"]")
        || is_sign(token, b"}")
        || is_kind(token, TokenKind::AnnexEnd)
}

/// Goes past the rest of an item, up to its semicolon.
#[tactic(auto, unfolding(crate::specs::Spans::tail_end))]
pub fn tail_end(reader: &mut Reader) -> Result<(), ReadError>
    ensures { Gives result tail_end reader.old reader.new }
{
    reader.until::<Tail>()?;
    reader.sign(b";")
}

/// The same inside of an annex, whose end it does not pass.
#[tactic(auto, unfolding(crate::specs::Spans::tail_end_inside))]
pub fn tail_end_inside(reader: &mut Reader) -> Result<(), ReadError>
    ensures { Gives result tail_end_inside reader.old reader.new }
{
    reader.until_inside::<Tail>()?;
    reader.sign(b";")
}
