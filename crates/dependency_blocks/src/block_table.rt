ghost use Rattle.std.specs.Prelude.{◌≡◌, ◌<◌, ◌+◌, ◌^◌, ℕ, IfOk, MatchOption, length, slice_index_or, slice_set};
ghost use Rattle.dependency_blocks.specs.Blocks.{number_of, size_of};
ghost use Rattle.dependency_blocks.specs.inner.Sizes.{HaveSizes, AreSmall};

use crate::checks::number_at;
use plain_values::Mem;
use std::alloc::Global;
use std::marker::Model;

/// The blocks of the facts of a slice. Contracts see the number of the block of each fact of the system.
///
/// A block's rank is its number: a fact depends on blocks of lower rank and on its own alone.
#[derive(Drop)]
pub struct Blocks {
    numbers: Vec<u32>,
    sizes: Vec<u32>,
}

impl Model for Blocks {
    ghost use Rattle.std.specs.Prelude.{ℕ, List};

    ghost Value = { List ℕ };

    ghost view = { λ b. b.numbers.items };

    ghost use Rattle.dependency_blocks.specs.inner.Sizes.{HaveSizes};

    ghost invariant = { λ b. HaveSizes b.numbers.items b.sizes.items };
}

impl Blocks {
    // The blocks with these numbers; their sizes are counted.
    pub(crate) fn of(alloc: Global, numbers: Vec<u32>) -> Mem<Blocks>
        requires few { length numbers.items < 2 ^ 32 }
        requires small { AreSmall numbers.items }
        ensures { IfOk result (λ blocks. blocks ≡ numbers.items) }
    {
        let sizes = sizes_of(alloc, numbers.as_slice())?;
        Ok(Blocks { numbers, sizes })
    }

    /// The block of a fact; none where the fact is in no block.
    pub fn block_of(&self, fact: u32) -> Option<u32>
        ensures { MatchOption result (number_of self.now fact ≡ 4294967295)
            (λ block. (block ≡ number_of self.now fact) × (block < 4294967295)) }
    {
        let number = number_at(self.numbers.as_slice(), fact);
        if number < 4_294_967_295 {
            Some(number)
        } else {
            None
        }
    }

    /// How many facts are in a block; none where there is no such block.
    pub fn size(&self, block: u32) -> Option<u32>
        ensures { MatchOption result (block < 4294967295 → size_of self.now block ≡ 0)
            (λ size. (size ≡ size_of self.now block) × (0 < size) × (block < 4294967295)) }
    {
        let size = size_at(self.sizes.as_slice(), block);
        if size > 0 && block < 4_294_967_295 {
            Some(size)
        } else {
            None
        }
    }
}

fn size_at(sizes: &[u32], block: u32) -> u32
    ensures { result ≡ slice_index_or sizes.now block 0 }
{
    match sizes.get(block as usize) {
        Some(size) => *size,
        None => 0,
    }
}

// How many facts are in each block.
fn sizes_of(alloc: Global, numbers: &[u32]) -> Mem<Vec<u32>>
    requires few { length numbers.now < 2 ^ 32 }
    requires small { AreSmall numbers.now }
    ensures { IfOk result (λ sizes. HaveSizes numbers.now sizes.items) }
{
    let mut sizes = vec![in alloc; 0u32; numbers.len()]?;
    count_all(sizes.as_mut_slice(), numbers);
    Ok(sizes)
}

fn count_all(sizes: &mut [u32], numbers: &[u32])
    requires few { length numbers.now < 2 ^ 32 }
    requires small { AreSmall numbers.now }
    requires long { length sizes.old ≡ length numbers.now }
    requires none { (k : ℕ) → slice_index_or sizes.old k 0 ≡ 0 }
    ensures { HaveSizes numbers.now sizes.new }
{
    for number in numbers {
        count_one(sizes, *number);
    }
}

fn count_one(sizes: &mut [u32], number: u32)
    requires { slice_index_or sizes.old number 0 < 4294967295 }
    ensures { sizes.new ≡ slice_set sizes.old number (slice_index_or sizes.old number 0 + 1) }
{
    let at = number as usize;
    if at < sizes.len() {
        sizes[at] += 1;
    }
}
