ghost use Rattle.std.specs.Prelude.{◌≡◌, ◌<◌, ◌*◌, false, length, min, replicate, slice_set, true, IfOk, IsTrue};
ghost use Rattle.error_types.specs.inner.Rows.{either, has_bit, numbers_in};
ghost use Rattle.error_types.specs.inner.Words.{Joins, bit_in, with_bit};

use plain_values::{List, Mem};
use std::alloc::Global;
use std::marker::Model;

/// Of the numbers below a count, which are there. Contracts see for each number whether it is.
#[derive(Drop)]
pub(crate) struct Row {
    count: u32,
    words: Vec<u64>,
}

impl Model for Row {
    ghost use Rattle.std.specs.Prelude.{◌≤◌, ◌*◌, List, Bool, length};
    ghost use Rattle.error_types.specs.inner.Words.{bits_of};

    ghost Value = { List Bool };

    ghost view = { λ r. bits_of r.count r.words.items };

    ghost invariant = { λ r. r.count ≤ 64 * length r.words.items };
}

impl Row {
    /// None of so many numbers.
    pub(crate) fn new(alloc: Global, count: u32) -> Mem<Row>
        ensures { IfOk result (λ row. row ≡ replicate count false) }
    {
        Ok(Row {
            count,
            words: zeros(alloc, count as usize / 64 + 1)?,
        })
    }

    /// The same numbers again.
    pub(crate) fn copy(&self, alloc: Global) -> Mem<Row>
        ensures { IfOk result (λ row. row ≡ self.now) }
    {
        Ok(Row {
            count: self.count,
            words: Vec::from_slice(alloc, self.words.as_slice())?,
        })
    }

    /// Whether it is the same as another.
    pub(crate) fn is(&self, other: &Row) -> bool
        ensures { IsTrue result → self.now ≡ other.now }
    {
        self.count == other.count && self.words.as_slice() == other.words.as_slice()
    }

    /// Whether a number is there.
    pub(crate) fn has(&self, number: u32) -> bool
        ensures { result ≡ has_bit self.now number }
    {
        number < self.count && has_bit(self.words.as_slice(), number)
    }

    /// Puts a number into the row.
    pub(crate) fn put(&mut self, number: u32)
        requires { number < length self.old }
        ensures { self.new ≡ slice_set self.old number true }
    {
        put_bit(self.words.as_mut_slice(), number);
    }

    /// Puts the numbers of another row, of as many numbers, into this.
    pub(crate) fn join(&mut self, other: &Row)
        ensures { length other.now ≡ length self.old → self.new ≡ either self.old other.now }
    {
        join_words(self.words.as_mut_slice(), other.words.as_slice());
    }

    /// The numbers that are there, rising.
    pub(crate) fn numbers(&self, alloc: Global) -> Mem<List<u32>>
        ensures { IfOk result (λ numbers. numbers ≡ numbers_in self.now) }
    {
        let mut numbers = List::new(alloc);
        for number in 0..self.count {
            let is_there = has_bit(self.words.as_slice(), number);
            numbers.push_if(number, is_there)?;
        }
        Ok(numbers)
    }
}

/// So many words without a bit.
fn zeros(alloc: Global, count: usize) -> Mem<Vec<u64>>
    ensures { IfOk result (λ words. words.items ≡ replicate count 0) }
{
    Ok(vec![in alloc; 0u64; count]?)
}

/// Puts the bits of the words of another row into these, as far as both go.
fn join_words(words: &mut [u64], other: &[u64])
    ensures { Joins words.old other.now words.new (min (length words.old) (length other.now)) }
{
    let both = words.len().min(other.len());
    for place in 0..both {
        words[place] |= other[place];
    }
}

/// Puts the bit of a number into words.
fn put_bit(words: &mut [u64], number: u32)
    requires { number < 64 * length words.old }
    ensures { words.new ≡ with_bit words.old number }
{
    words[number as usize / 64] |= 1 << (number % 64);
}

/// Whether words have the bit of a number.
fn has_bit(words: &[u64], number: u32) -> bool
    requires { number < 64 * length words.now }
    ensures { result ≡ bit_in words.now number }
{
    (words[number as usize / 64] >> (number % 64)) & 1 == 1
}
