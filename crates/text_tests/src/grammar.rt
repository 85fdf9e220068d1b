//! A table of small texts by the sample grammar: what each gives, or its dead place.

ghost use Rattle.std.specs.Prelude.{[], ◌∷◌, codes};
ghost use Rattle.grammar_rules.specs.inner.Reader.{Gives, Begins};
ghost use Rattle.grammar_rules.specs.Tokens.{is_identifier, is_sign};
ghost use Rattle.text_tests.specs.inner.Sample.{reserved, name, further_name, further_name-takes, uses, dotted, item, skipped, annexed, sample};

use aadl_lexer::tokens;
use aadl_syntax::{Identifier, TokenKind, TokenList};
use grammar_rules::{
    Balanced, Grammar, Parts, ReadError, Reader, Tail, ToEnd, read_text, token_place,
};
use plain_values::{List, Place, Stop};
use std::alloc::Global;

const RESERVED: [&[u8]; 4] = [b"use", b"item", b"skip", b"end"];

#[tactic(auto, unfolding(crate::specs::inner::Sample::name, crate::specs::inner::Sample::reserved))]
fn name(reader: &mut Reader) -> Result<Identifier, ReadError>
    ensures { Gives result name reader.old reader.new }
{
    reader.identifier(&RESERVED)
}

#[tactic(auto, unfolding(crate::specs::inner::Sample::reserved))]
fn name_at(reader: &mut Reader, k: usize) -> bool
    ensures { Begins result k (is_identifier reserved ∷ []) reader.old reader.new }
{
    reader.identifier_at(k, &RESERVED)
}

struct FurtherNames;

impl Parts for FurtherNames {
    type Part = Identifier;

    ghost tests = { is_sign (codes "::") ∷ is_identifier reserved ∷ [] };

    ghost rule = { further_name };

    fn begins(reader: &mut Reader) -> bool {
        reader.sign_at(0, b"::") && name_at(reader, 1)
    }

    #[tactic(auto, unfolding(crate::specs::inner::Sample::further_name))]
    fn part(reader: &mut Reader) -> Result<Identifier, ReadError> {
        reader.sign(b"::")?;
        name(reader)
    }

    ghost takes_tokens = { further_name-takes };
}

#[tactic(auto, unfolding(crate::specs::inner::Sample::uses))]
fn uses(reader: &mut Reader) -> Result<List<Identifier>, ReadError>
    ensures { Gives result uses reader.old reader.new }
{
    reader.word(b"use")?;
    let first = name(reader)?;
    let names = reader.parts_after::<FurtherNames>(first)?;
    reader.sign(b";")?;
    Ok(names)
}

#[tactic(auto, unfolding(crate::specs::inner::Sample::dotted))]
fn dotted(reader: &mut Reader, first: Identifier) -> Result<List<Identifier>, ReadError>
    ensures { Gives result (dotted first) reader.old reader.new }
{
    let mut names = List::new(reader.alloc());
    names.push(first)?;
    if reader.sign_at(0, b".") {
        reader.sign(b".")?;
        names.push(name(reader)?)?;
    }
    Ok(names)
}

#[tactic(auto, unfolding(crate::specs::inner::Sample::item))]
fn item(reader: &mut Reader) -> Result<List<Identifier>, ReadError>
    ensures { Gives result item reader.old reader.new }
{
    reader.word(b"item")?;
    let first = name(reader)?;
    let names = dotted(reader, first)?;
    reader.until::<Tail>()?;
    reader.sign(b";")?;
    Ok(names)
}

#[tactic(auto, unfolding(crate::specs::inner::Sample::skipped))]
fn skipped(reader: &mut Reader) -> Result<List<Identifier>, ReadError>
    ensures { Gives result skipped reader.old reader.new }
{
    reader.word(b"skip")?;
    reader.until::<ToEnd>()?;
    reader.word(b"end")?;
    reader.sign(b";")?;
    Ok(List::new(reader.alloc()))
}

#[tactic(auto, unfolding(crate::specs::inner::Sample::annexed))]
fn annexed(reader: &mut Reader) -> Result<List<Identifier>, ReadError>
    ensures { Gives result annexed reader.old reader.new }
{
    reader.word(b"emv2")?;
    reader.kind(TokenKind::AnnexBegin)?;
    reader.until::<Balanced>()?;
    reader.kind(TokenKind::AnnexEnd)?;
    Ok(List::new(reader.alloc()))
}

struct Sample;

impl Grammar for Sample {
    type Value = List<Identifier>;

    ghost rule = { sample };

    #[tactic(auto, unfolding(crate::specs::inner::Sample::sample))]
    fn read(reader: &mut Reader) -> Result<List<Identifier>, ReadError> {
        if reader.word_at(0, b"use") {
            return uses(reader);
        }
        if reader.word_at(0, b"item") {
            return item(reader);
        }
        if reader.word_at(0, b"skip") {
            return skipped(reader);
        }
        annexed(reader)
    }
}

// The number of the token at a place, or that of all tokens where none is there.
fn number_at(list: &TokenList, at: u32) -> usize {
    for number in 0..list.len() {
        if token_place(list, u32::MAX, number) == at {
            return number;
        }
    }
    list.len()
}

// How many names the text gives, or the number of the token at its dead place; nothing where it has no tokens or memory is
// wanting.
fn outcome(alloc: Global, text: &str) -> Option<Result<usize, usize>> {
    let bytes = text.as_bytes();
    if bytes.len() > 4_194_304 {
        return None;
    }
    let list = tokens(alloc, 0, bytes).ok()?;
    match read_text::<Sample>(alloc, 0, &list, bytes.len() as u32) {
        Ok(names) => Some(Ok(names.items().len())),
        Err(Stop::Refused(refusal)) => match refusal.place {
            Place::At { file: 0, at } => Some(Err(number_at(&list, at))),
            _ => None,
        },
        Err(Stop::Memory) => None,
    }
}

#[test]
fn texts(rt: HostRuntime) {
    let table: [(&str, Result<usize, usize>); 25] = [
        ("use a ;", Ok(1)),
        ("use a :: b :: c ;", Ok(3)),
        ("item a ;", Ok(1)),
        ("item a . b ;", Ok(2)),
        // a part of two tokens' look-ahead is left to the tail where only its sign stands
        ("item a :: 5 ;", Ok(1)),
        ("item a ( ; ) [ x ] ;", Ok(1)),
        ("skip x ( end ) end ;", Ok(0)),
        ("emv2 {** **}", Ok(0)),
        ("emv2 {** a ; ( { b } ) end **}", Ok(0)),
        // the end, at which a text begins
        ("", Err(0)),
        ("a", Err(0)),
        // a reserved word is no identifier
        ("use end ;", Err(1)),
        ("use 5 ;", Err(1)),
        ("use a", Err(2)),
        ("use a b", Err(2)),
        // what stands after a sign that may go on with a name is looked at
        ("use a :: ;", Err(3)),
        ("use a :: end", Err(3)),
        ("use a :: b :: 5", Err(5)),
        // a part of one token's look-ahead is begun at its sign
        ("item a . 5 ;", Err(3)),
        // a token is left
        ("use a ; b", Err(3)),
        // brackets
        ("item a ) ;", Err(2)),
        ("item a ( ;", Err(4)),
        ("skip ) end ;", Err(4)),
        ("emv2 {** ( **}", Err(4)),
        ("emv2 {** ) ; **}", Err(2)),
    ];
    for (text, expected) in table {
        assert!(rt; outcome(rt.alloc(), text) == Some(expected), "{text}");
    }
}

#[test]
fn looks(rt: HostRuntime) {
    let list = tokens(rt.alloc(), 7, b"a :: b").unwrap_or(TokenList::new(rt.alloc()));
    let mut reader = Reader::new(rt.alloc(), 7, &list);
    assert_eq!(rt; reader.file(), 7);
    assert_eq!(rt; reader.unseen(), 4);
    assert!(rt; reader.word_at(0, b"a"));
    assert!(rt; !reader.word_at(0, b"b"));
    assert_eq!(rt; reader.unseen(), 3);
    assert!(rt; reader.kind_at(1, TokenKind::Sign));
    assert!(rt; name_at(&mut reader, 2));
    assert_eq!(rt; reader.unseen(), 1);
    assert!(rt; reader.look(3).is_none());
    assert_eq!(rt; reader.unseen(), 0);
    reader.step();
    assert!(rt; reader.place() == Ok(2));
    let none = reader.parts::<FurtherNames>();
    assert!(rt; none.is_ok_and(|names| names.items().len() == 1));
    assert!(rt; reader.end() == Ok(()));
    assert!(rt; reader.place() == Err(ReadError::Refused));
}
