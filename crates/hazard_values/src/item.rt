//! The items of a list.

ghost use Rattle.std.specs.Prelude.{◌≡◌, IfOk};
ghost use Rattle.grammar_rules.specs.inner.Reader.{Gives};
ghost use Rattle.hazard_values.specs.Texts.{further_item, item, items, list_items, list_value};

use crate::field::comma_at;
use aadl_syntax::{TokenList, TokenRef};
use grammar_rules::{Parts, ReadError, Reader, Span, closes, is_sign};
use plain_values::{List, Mem};
use std::alloc::{AllocError, Global};

/// The items of a value, if it is a list.
pub(crate) fn list_items(alloc: Global, value: &TokenList) -> Mem<Option<List<TokenList>>>
    ensures { IfOk result (λ items. items ≡ list_items value.now) }
{
    let mut reader = Reader::new(alloc, 0, value);
    match list_value(&mut reader) {
        Ok(items) => Ok(Some(items)),
        Err(ReadError::Refused) => Ok(None),
        Err(ReadError::Memory) => Err(AllocError),
    }
}

/// Reads a list, and the end.
#[tactic(auto, unfolding(crate::specs::Texts::list_value))]
fn list_value(reader: &mut Reader) -> Result<List<TokenList>, ReadError>
    ensures { Gives result list_value reader.old reader.new }
{
    reader.sign(b"(")?;
    let items = all_items(reader)?;
    reader.sign(b")")?;
    reader.end()?;
    Ok(items)
}

/// Reads items with commas between them.
#[tactic(auto, unfolding(crate::specs::Texts::items))]
fn all_items(reader: &mut Reader) -> Result<List<TokenList>, ReadError>
    ensures { Gives result items reader.old reader.new }
{
    let first = one_item(reader)?;
    reader.parts_after::<FurtherItems>(first)
}

/// Reads a comma and an item.
#[tactic(auto, unfolding(crate::specs::Texts::further_item))]
fn further_item(reader: &mut Reader) -> Result<TokenList, ReadError>
    ensures { Gives result further_item reader.old reader.new }
{
    reader.sign(b",")?;
    one_item(reader)
}

/// Reads an item.
#[tactic(auto, unfolding(crate::specs::Texts::item))]
fn one_item(reader: &mut Reader) -> Result<TokenList, ReadError>
    ensures { Gives result item reader.old reader.new }
{
    Ok(reader.until::<ItemTokens>()?.copied(reader.alloc())?)
}

// The tokens of an item.
struct ItemTokens;

impl Span for ItemTokens {
    ghost use Rattle.hazard_values.specs.Texts.{ends_item};

    ghost stops = { ends_item };

    #[tactic(auto, unfolding(crate::specs::Texts::ends_item))]
    fn stops_at(_before: Option<TokenRef>, token: &TokenRef) -> bool {
        closes(token) || is_sign(token, b",")
    }
}

// The items of a list behind the first.
struct FurtherItems;

impl Parts for FurtherItems {
    ghost use Rattle.std.specs.Prelude.{[], ◌∷◌, codes};
    ghost use Rattle.grammar_rules.specs.Tokens.{is_sign};
    ghost use Rattle.hazard_values.specs.Texts.{further_item};
    ghost use Rattle.hazard_values.specs.inner.Takes.{further_item-takes};

    type Part = TokenList;

    ghost tests = { is_sign (codes ",") ∷ [] };

    ghost rule = { further_item };

    fn begins(reader: &mut Reader) -> bool {
        comma_at(reader)
    }

    fn part(reader: &mut Reader) -> Result<TokenList, ReadError> {
        further_item(reader)
    }

    ghost takes_tokens = { further_item-takes };
}
