//! What a value says, as text.

ghost use Rattle.std.specs.Prelude.{◌≡◌, ◌++◌, ◌∷◌, [], IfOk, OnOk, codes, cond, drop, false, true, flat_map, map, option_map};
ghost use Rattle.aadl_syntax.specs.inner.Token.{shown};
ghost use Rattle.hazard_values.specs.Texts.{begins_at, further_text, gap, goes_on, inside, is_raised, is_string, item_text, joined, one_plain, plain_after, quoted_text, said, spaced, string_text, value_text};

use crate::item::list_items;
use aadl_syntax::{TokenKind, TokenList, TokenRef};
use grammar_rules::is_sign;
use plain_values::{List, Mem, Name};
use std::alloc::Global;

/// What a value of a property says: of a list what its items say, with `; ` between them; of one string what stands between its quotes, where a quote that
/// is written twice, or behind a `\`, is one; of `Set::Name` its words without blanks; and of anything else its tokens with one blank between them. Words
/// stand as tokens have them, in lower case.
pub fn text_of(alloc: Global, value: &TokenList) -> Mem<Name>
    ensures { IfOk result (λ text. text ≡ value_text value.now) }
{
    let items = list_items(alloc, value)?;
    let mut text = List::new(alloc);
    put_said(&mut text, value, &items)?;
    Ok(text)
}

/// Adds what a list of items says, and of other tokens what they say.
fn put_said(text: &mut Name, tokens: &TokenList, items: &Option<List<TokenList>>) -> Mem<()>
    ensures { OnOk result (text.new ≡ text.old ++ said tokens.now items.now) }
{
    match items {
        Some(items) => put_joined(text, items.items()),
        None => put_item(text, tokens),
    }
}

/// Adds what items say, with `; ` between them.
fn put_joined(text: &mut Name, items: &[TokenList]) -> Mem<()>
    ensures { OnOk result (text.new ≡ text.old ++ joined (map item_text items.now)) }
{
    let Some((first, rest)) = items.split_first() else {
        return Ok(());
    };
    put_item(text, first)?;
    put_rest(text, rest)
}

/// Adds what further items say, each behind `; `.
fn put_rest(text: &mut Name, items: &[TokenList]) -> Mem<()>
    ensures { OnOk result (text.new ≡ text.old ++ flat_map (λ other. codes "; " ++ other) (map item_text items.now)) }
{
    for item in items {
        put_further(text, item)?;
    }
    Ok(())
}

/// Adds what a further item says, behind `; `.
fn put_further(text: &mut Name, item: &TokenList) -> Mem<()>
    ensures { OnOk result (text.new ≡ text.old ++ (codes "; " ++ item_text item.now)) }
{
    put(text, b"; ")?;
    put_item(text, item)
}

/// Adds what tokens say that are no list.
fn put_item(text: &mut Name, tokens: &TokenList) -> Mem<()>
    ensures { OnOk result (text.new ≡ text.old ++ item_text tokens.now) }
{
    if is_string(tokens) {
        return put_string(text, tokens);
    }
    put_spaced(text, tokens)
}

/// Adds bytes.
fn put(text: &mut Name, bytes: &[u8]) -> Mem<()>
    ensures { OnOk result (text.new ≡ text.old ++ bytes.now) }
{
    for byte in bytes {
        text.push(*byte)?;
    }
    Ok(())
}

// ---- strings

/// Whether tokens are one string: one or more texts in quotes with nothing between them.
fn is_string(tokens: &TokenList) -> bool
    ensures { result ≡ is_string tokens.now }
{
    match tokens.get(0) {
        Some(first) => first.kind == TokenKind::Text && goes_on(tokens, first.end),
        None => false,
    }
}

/// Whether the tokens behind the first go on the string that ends at this byte.
fn goes_on(tokens: &TokenList, first_end: u32) -> bool
    ensures { result ≡ goes_on first_end (drop 1 tokens.now) }
{
    let mut end = first_end;
    for number in 1..tokens.len() {
        let Some(token) = tokens.get(number) else {
            return true;
        };
        if !begins_at(end, &token) {
            return false;
        }
        end = token.end;
    }
    true
}

/// Whether a token is a text in quotes that begins at this byte.
fn begins_at(place: u32, token: &TokenRef) -> bool
    ensures { result ≡ begins_at place (shown token.now) }
{
    token.kind == TokenKind::Text && token.start == place
}

/// Adds what a string says.
fn put_string(text: &mut Name, tokens: &TokenList) -> Mem<()>
    ensures { OnOk result (text.new ≡ text.old ++ string_text tokens.now) }
{
    let Some(first) = tokens.get(0) else {
        return Ok(());
    };
    put_quoted(text, first.text)?;
    put_further_texts(text, tokens)
}

/// Adds what the texts in quotes behind the first say, each behind a quote.
fn put_further_texts(text: &mut Name, tokens: &TokenList) -> Mem<()>
    ensures { OnOk result (text.new ≡ text.old ++ flat_map further_text (drop 1 tokens.now)) }
{
    for number in 1..tokens.len() {
        let Some(token) = tokens.get(number) else {
            return Ok(());
        };
        put_further_text(text, &token)?;
    }
    Ok(())
}

/// Adds a quote, and what a text in quotes says.
fn put_further_text(text: &mut Name, token: &TokenRef) -> Mem<()>
    ensures { OnOk result (text.new ≡ text.old ++ further_text (shown token.now)) }
{
    text.push(b'"')?;
    put_quoted(text, token.text)
}

/// Adds what a text in quotes says.
fn put_quoted(text: &mut Name, quoted: &[u8]) -> Mem<()>
    ensures { OnOk result (text.new ≡ text.old ++ quoted_text quoted.now) }
{
    put_plain(text, inside(quoted))
}

/// What stands between the quotes of a text in quotes.
fn inside(text: &[u8]) -> &[u8]
    ensures { result.now ≡ inside text.now }
{
    if text.len() < 2 {
        return &[];
    }
    &text[1..text.len() - 1]
}

/// Adds bytes without the `\` before a quote and before a `\`.
fn put_plain(text: &mut Name, bytes: &[u8]) -> Mem<()>
    ensures { OnOk result (text.new ≡ text.old ++ plain_after false bytes.now) }
{
    let mut is_behind = false;
    for byte in bytes {
        put_one(text, is_behind, *byte)?;
        is_behind = is_raised(is_behind, *byte);
    }
    if is_behind {
        text.push(b'\\')?;
    }
    Ok(())
}

/// Whether a `\` stands before the byte behind this one.
fn is_raised(is_behind: bool, byte: u8) -> bool
    ensures { result ≡ is_raised is_behind byte }
{
    !is_behind && byte == b'\\'
}

/// Adds what a byte stands for, where a `\` may stand before it.
fn put_one(text: &mut Name, is_behind: bool, byte: u8) -> Mem<()>
    ensures { OnOk result (text.new ≡ text.old ++ one_plain is_behind byte) }
{
    if is_behind {
        return put_behind(text, byte);
    }
    text.push_if(byte, byte != b'\\')
}

/// Adds what a byte stands for behind a `\`.
fn put_behind(text: &mut Name, byte: u8) -> Mem<()>
    ensures { OnOk result (text.new ≡ text.old ++ one_plain true byte) }
{
    if byte != b'"' && byte != b'\\' {
        text.push(b'\\')?;
    }
    text.push(byte)
}

// ---- other values

/// Adds the texts of tokens with one blank between them, and none beside the `::` of a name.
fn put_spaced(text: &mut Name, tokens: &TokenList) -> Mem<()>
    ensures { OnOk result (text.new ≡ text.old ++ spaced tokens.now) }
{
    let mut before: Option<TokenRef> = None;
    for number in 0..tokens.len() {
        let Some(token) = tokens.get(number) else {
            return Ok(());
        };
        put_token(text, before, &token)?;
        before = Some(token);
    }
    Ok(())
}

/// Adds the text of a token, and what stands before it.
fn put_token(text: &mut Name, before: Option<TokenRef>, token: &TokenRef) -> Mem<()>
    ensures { OnOk result (text.new ≡ text.old ++ (gap (option_map shown before.entry) (shown token.now) ++ token.now.text.now)) }
{
    if has_gap(before, token) {
        text.push(b' ')?;
    }
    put(text, token.text)
}

/// Whether a blank stands between a token and the one behind it.
fn has_gap(before: Option<TokenRef>, token: &TokenRef) -> bool
    ensures { cond result (32 ∷ []) [] ≡ gap (option_map shown before.entry) (shown token.now) }
{
    match before {
        Some(before) => !(is_sign(&before, b"::") || is_sign(token, b"::")),
        None => false,
    }
}
