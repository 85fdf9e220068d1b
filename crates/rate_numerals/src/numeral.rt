//! A number of a rate as AADL writes it.

ghost use Rattle.std.specs.Prelude.{◌≡◌, ◌≤◌, ◌++◌, IfOk, OnOk, length};
ghost use Rattle.aadl_syntax.specs.Form.{is_digit};
ghost use Rattle.rate_numerals.specs.Numerals.{begins_with_digit, behind_point, front_or_zero, numeral, point, with_digit};

use plain_values::{List, Mem, Name};
use std::alloc::Global;

/// A number of a rate with a digit before its point and one behind it: `.5` is `0.5`, and `5.` is `5.0`. Another number stays as it is.
pub(crate) fn numeral_of(alloc: Global, text: &[u8]) -> Mem<Name>
    ensures { IfOk result (λ made. made ≡ numeral text.now) }
{
    let (front, back) = text.split_at(point(text));
    let mut made = Vec::new(alloc);
    push_front(&mut made, front)?;
    push_back(&mut made, back)?;
    List::of(made)
}

/// Where the point of a number stands, or where the number ends.
fn point(text: &[u8]) -> usize
    ensures within { result ≤ length text.now }
    ensures value { result ≡ point text.now }
{
    text.iter().take_while(|byte| **byte != b'.').count()
}

/// Adds what stands before the point, or a 0.
fn push_front(made: &mut Vec<u8>, front: &[u8]) -> Mem<()>
    ensures { OnOk result (made.new.items ≡ made.old.items ++ front_or_zero front.now) }
{
    if front.is_empty() {
        made.push(b'0')?;
    } else {
        made.extend_from_slice(front)?;
    }
    Ok(())
}

/// Adds the point and what stands behind it, or nothing.
fn push_back(made: &mut Vec<u8>, back: &[u8]) -> Mem<()>
    ensures { OnOk result (made.new.items ≡ made.old.items ++ behind_point back.now) }
{
    let Some((first, rest)) = back.split_first() else {
        return Ok(());
    };
    made.push(*first)?;
    push_digits(made, rest)
}

/// Adds what stands behind the point, with a 0 before it where it does not begin with a digit.
fn push_digits(made: &mut Vec<u8>, rest: &[u8]) -> Mem<()>
    ensures { OnOk result (made.new.items ≡ made.old.items ++ with_digit rest.now) }
{
    if !begins_with_digit(rest) {
        made.push(b'0')?;
    }
    made.extend_from_slice(rest)?;
    Ok(())
}

/// Whether a text begins with a decimal digit.
fn begins_with_digit(text: &[u8]) -> bool
    ensures { result ≡ begins_with_digit text.now }
{
    match text.first() {
        Some(byte) => byte.is_ascii_digit(),
        None => false,
    }
}
