//! The reading of a whole file.

ghost use Rattle.std.specs.Prelude.{◌≡◌, ℕ, List as Items, [], Err, IfOk, IfErr, MatchResult};
ghost use Rattle.aadl_syntax.specs.declared.token.Token.{Token};
ghost use Rattle.aadl_syntax.specs.declared.core_model.Unit.{Unit as FileUnit};
ghost use Rattle.plain_values.specs.declared.refusal.Stop.TheVariants.{Refused, Memory};
ghost use Rattle.plain_values.specs.inner.Stops.{StopsFor};
ghost use Rattle.grammar_rules.specs.Rules.{Reads};
ghost use Rattle.grammar_rules.specs.Texts.{token_place};
ghost use Rattle.aadl_parser.specs.Packages.{file_units};
ghost use Rattle.aadl_parser.specs.Nesting.{IsShallow, NestedAt};
ghost use Rattle.aadl_parser.specs.Files.{too_nested};
ghost use Rattle.aadl_parser.specs.inner.Files.{IsUnread};

use crate::nesting::too_nested_at;
use crate::packages::file_units;
use aadl_syntax::{TokenList, Unit};
use grammar_rules::{Grammar, ReadError, Reader, read_text, token_place};
use plain_values::{Answer, Code, List, Refusal, Spot, Stop};
use std::alloc::Global;

// The grammar of a file.
struct FileUnits;

impl Grammar for FileUnits {
    type Value = List<Unit>;

    ghost rule = { file_units };

    fn read(reader: &mut Reader) -> Result<List<Unit>, ReadError> {
        file_units(reader)
    }
}

/// Reads a file: its packages and property sets, in order. `tokens` are all its tokens, those of its error model annexes
/// with the rest; files are numbered from 0, and `end` is the length of the file, in bytes.
///
/// A file with more than 64 open brackets is refused as `TooNested` at the first bracket at which more are open, whatever else
/// is wrong in it. Tokens that have no reading are refused as `Syntax`.
pub fn units(alloc: Global, file: u32, tokens: &TokenList, end: u32) -> Answer<List<Unit>>
    // What is answered is what the tokens read as; nowhere are too many brackets open in them.
    ensures found { IfOk result (λ value. IsShallow tokens.now × Reads file file_units tokens.now value []) }

    // What the tokens read as is answered, unless memory runs out: so a syntax error comes only where they have no reading.
    ensures only { IsShallow tokens.now → (value : _) → Reads file file_units tokens.now value [] → MatchResult result (λ answer. answer ≡ value) (λ stop. stop ≡ Memory) }

    // Too many open brackets are refused at the first at which they are too many, whatever else is wrong in the file.
    ensures nested { (number : ℕ) → NestedAt tokens.now number → result ≡ Err (Refused (too_nested file (token_place tokens.now end number))) }

    // A refusal names that bracket, or else a token, or the end, such that no tokens with the same up to and with it have a reading.
    ensures dead { IfErr result (StopsFor (IsUnread file tokens.now end)) }
{
    if let Some(number) = too_nested_at(tokens) {
        return Err(nesting_error(file, tokens, end, number));
    }
    read_text::<FileUnits>(alloc, file, tokens, end)
}

/// The refusal of the bracket of this number, at which too many are open.
fn nesting_error(file: u32, tokens: &TokenList, end: u32, number: usize) -> Stop
    ensures { result ≡ Refused (too_nested file (token_place tokens.now end number)) }
{
    let at = token_place(tokens, end, number);
    Stop::Refused(Refusal::at(Code::TooNested, Spot { file, at }))
}

/// The tokens of a file read as one list of units at most.
pub fn one_file()
    ensures { (file : ℕ) (tokens : Items Token) (value other : Items FileUnit) → Reads file file_units tokens value [] → Reads file file_units tokens other [] → value ≡ other }
{}
