ghost use Rattle.aadl_syntax.specs.declared.token.TokenKind.TheVariants.{AnnexEnd};
ghost use Rattle.grammar_rules.specs.Rules.{gives, joins};
ghost use Rattle.grammar_rules.specs.Tokens.{kind};
ghost use Rattle.grammar_rules.specs.inner.Reader.{Gives, given};
ghost use Rattle.aadl_parser.specs.Annexes.{raw_body, other_annex, library_body, library_or_none, library_named, library_annex, ended_clause, clause_body, clause_or_none, clause_named, clause_annex};

use crate::runs::in_modes;
use crate::words::core_name;
use aadl_syntax::{Emv2Clause, Emv2Library, TokenKind};
use emv2_parser::{clause_inside, library_after};
use grammar_rules::{ReadError, Reader};
use plain_values::List;

#[tactic(auto, unfolding(crate::specs::Annexes::raw_body))]
fn raw_body(reader: &mut Reader) -> Result<(), ReadError>
    ensures { Gives result raw_body reader.old reader.new }
{
    reader.kind(TokenKind::AnnexBegin)?;
    reader.kind(TokenKind::AnnexRaw)?;
    reader.kind(TokenKind::AnnexEnd)
}

#[tactic(auto, unfolding(crate::specs::Annexes::other_annex))]
fn other_annex(reader: &mut Reader) -> Result<(), ReadError>
    ensures { Gives result other_annex reader.old reader.new }
{
    core_name(reader)?;
    if reader.kind_at(0, TokenKind::AnnexBegin) {
        return raw_body(reader);
    }
    reader.word(b"none")
}

#[tactic(auto, unfolding(crate::specs::Annexes::library_body))]
fn library_body(reader: &mut Reader, library: &mut Emv2Library) -> Result<(), ReadError>
    ensures { Gives (given result library.new) (library_body library.old) reader.old reader.new }
{
    reader.kind(TokenKind::AnnexBegin)?;
    library_after(reader, library)?;
    reader.kind(TokenKind::AnnexEnd)
}

#[tactic(auto, unfolding(crate::specs::Annexes::library_or_none))]
fn library_or_none(reader: &mut Reader, library: &mut Emv2Library) -> Result<(), ReadError>
    ensures { Gives (given result library.new) (library_or_none library.old) reader.old reader.new }
{
    if reader.kind_at(0, TokenKind::AnnexBegin) {
        return library_body(reader, library);
    }
    reader.word(b"none")
}

#[tactic(auto, unfolding(crate::specs::Annexes::library_named))]
fn library_named(reader: &mut Reader, library: &mut Emv2Library) -> Result<(), ReadError>
    ensures { Gives (given result library.new) (library_named library.old) reader.old reader.new }
{
    if reader.word_at(0, b"emv2") {
        reader.word(b"emv2")?;
        return library_or_none(reader, library);
    }
    other_annex(reader)
}

/// Reads an annex of a package, and gives what it and those before it make.
#[tactic(auto, unfolding(crate::specs::Annexes::library_annex))]
pub(crate) fn library_annex(reader: &mut Reader, library: &mut Emv2Library) -> Result<(), ReadError>
    ensures { Gives (given result library.new) (library_annex library.old) reader.old reader.new }
{
    reader.word(b"annex")?;
    library_named(reader, library)?;
    reader.sign(b";")
}

#[tactic(auto, unfolding(crate::specs::Annexes::ended_clause))]
fn ended_clause(reader: &mut Reader) -> Result<Emv2Clause, ReadError>
    ensures { Gives result ended_clause reader.old reader.new }
{
    let clause = clause_inside(reader)?;
    ended(reader, clause)
}

/// The clause, at the end of its annex.
fn ended(reader: &mut Reader, clause: Emv2Clause) -> Result<Emv2Clause, ReadError>
    ensures { Gives result (joins (kind AnnexEnd) (λ _. gives clause)) reader.old reader.new }
{
    reader.kind(TokenKind::AnnexEnd)?;
    Ok(clause)
}

#[tactic(auto, unfolding(crate::specs::Annexes::clause_body))]
fn clause_body(reader: &mut Reader, clauses: &mut List<Emv2Clause>) -> Result<(), ReadError>
    ensures { Gives (given result clauses.new) (clause_body clauses.old) reader.old reader.new }
{
    reader.kind(TokenKind::AnnexBegin)?;
    let clause = ended_clause(reader)?;
    Ok(clauses.push(clause)?)
}

#[tactic(auto, unfolding(crate::specs::Annexes::clause_or_none))]
fn clause_or_none(reader: &mut Reader, clauses: &mut List<Emv2Clause>) -> Result<(), ReadError>
    ensures { Gives (given result clauses.new) (clause_or_none clauses.old) reader.old reader.new }
{
    if reader.kind_at(0, TokenKind::AnnexBegin) {
        return clause_body(reader, clauses);
    }
    reader.word(b"none")
}

#[tactic(auto, unfolding(crate::specs::Annexes::clause_named))]
fn clause_named(reader: &mut Reader, clauses: &mut List<Emv2Clause>) -> Result<(), ReadError>
    ensures { Gives (given result clauses.new) (clause_named clauses.old) reader.old reader.new }
{
    if reader.word_at(0, b"emv2") {
        reader.word(b"emv2")?;
        return clause_or_none(reader, clauses);
    }
    other_annex(reader)
}

/// Reads an annex of a classifier, and gives its clause after others.
#[tactic(auto, unfolding(crate::specs::Annexes::clause_annex))]
pub(crate) fn clause_annex(
    reader: &mut Reader,
    clauses: &mut List<Emv2Clause>,
) -> Result<(), ReadError>
    ensures { Gives (given result clauses.new) (clause_annex clauses.old) reader.old reader.new }
{
    reader.word(b"annex")?;
    clause_named(reader, clauses)?;
    in_modes(reader)?;
    reader.sign(b";")
}
