ghost use Rattle.std.specs.Prelude.{◌≡◌, ◌-◌, ℕ, List, [], IfOk, IfErr, MatchResult, length};
ghost use Rattle.aadl_syntax.specs.declared.token.Token.{Token};
ghost use Rattle.plain_values.specs.declared.refusal.Stop.TheVariants.{Refused, Memory};
ghost use Rattle.grammar_rules.specs.Rules.{Reads, joins, ends, gives};
ghost use Rattle.grammar_rules.specs.inner.Reader.{Gives};
ghost use Rattle.grammar_rules.specs.Texts.{syntax_error, token_place};
ghost use Rattle.grammar_rules.specs.inner.Texts.{StopsDead};

use crate::reader::{ReadError, Reader};
use aadl_syntax::TokenList;
use plain_values::{Answer, Code, List, Refusal, Spot, Stop};
use std::alloc::Global;

/// A grammar of whole texts.
pub trait Grammar {
    ghost use Rattle.grammar_rules.specs.Rules.{Rule};
    ghost use Rattle.grammar_rules.specs.inner.Reader.{Gives};

    /// What a text gives.
    type Value: Drop;

    ghost rule: { Rule Self.Value };

    /// Reads by the rule of the grammar; tokens may be left.
    fn read(reader: &mut Reader) -> Result<Self::Value, ReadError>
        ensures { Gives result rule reader.old reader.new };
}

/// Reads a whole text, the tokens of a file. Files are numbered from 0, and `end` is the place of the end, in bytes.
///
/// Tokens that have no reading are refused as `Syntax`.
pub fn read_text<G: Grammar>(
    alloc: Global,
    file: u32,
    tokens: &TokenList,
    end: u32,
) -> Answer<G::Value>
    // What is answered is what the text reads as.
    ensures found { IfOk result (λ value. Reads file G.rule tokens.now value []) }

    // What the text reads as is answered, unless memory runs out: so a refusal comes only where it has no reading.
    ensures only { (value : _) → Reads file G.rule tokens.now value []
        → MatchResult result (λ answer. answer ≡ value) (λ stop. stop ≡ Memory) }

    // A refusal names a token, or the end, such that no text with the same tokens up to and with it has a reading.
    ensures dead { IfErr result (StopsDead file G.rule tokens.now end) }
{
    let mut reader = Reader::new(alloc, file, tokens);
    match whole::<G>(&mut reader) {
        Ok(value) => Ok(value),
        Err(ReadError::Memory) => Err(Stop::Memory),
        Err(ReadError::Refused) => Err(syntax_error(file, tokens, end, reader.unseen())),
    }
}

fn whole<G: Grammar>(reader: &mut Reader) -> Result<G::Value, ReadError>
    ensures { Gives result (joins G.rule (λ value. joins ends (λ _. gives value))) reader.old reader.new }
{
    let value = G::read(reader)?;
    reader.end()?;
    Ok(value)
}

/// The refusal of text of this file at the last token, or the end, that a reading of the tokens has looked at: `unseen` of the
/// tokens and the end are behind it. `end` is the place of the end, in bytes.
fn syntax_error(file: u32, tokens: &TokenList, end: u32, unseen: usize) -> Stop
    ensures { result ≡ Refused (syntax_error file (token_place tokens.now end (length tokens.now - unseen))) }
{
    let number = tokens.len().saturating_sub(unseen);
    let at = token_place(tokens, end, number);
    Stop::Refused(Refusal::at(Code::Syntax, Spot { file, at }))
}

/// Where the token of this number starts, or the place of the end, in bytes.
pub fn token_place(tokens: &TokenList, end: u32, number: usize) -> u32
    ensures { result ≡ token_place tokens.now end number }
{
    match tokens.get(number) {
        Some(token) => token.start,
        None => end,
    }
}

/// The front of some tokens reads in one way at most, by the rule of any grammar.
pub fn one_reading<G: Grammar>()
    ensures { (file : ℕ) (tokens : List Token) (value other : _) (rest end : List Token)
        → Reads file G.rule tokens value rest → Reads file G.rule tokens other end → (value ≡ other) × (rest ≡ end) }
{}
