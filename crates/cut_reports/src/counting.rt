ghost use Rattle.std.specs.Prelude.{◌≡◌, ◌+◌, ◌<◌, ◌++◌, IfOk, OnOk, length, replicate, vec_len};
ghost use Rattle.cut_reports.specs.inner.Counts.{AddedAll, AddedAt, CountedAt, count_end};
ghost use Rattle.fta_outside.specs.Counts.{capped};

use itoa::Buffer;
use plain_values::Mem;
use std::alloc::Global;

/// So many counts, each 0.
pub(crate) fn no_counts(alloc: Global, count: usize) -> Mem<Vec<u64>>
    ensures counts { IfOk result (λ counts. counts.items ≡ replicate count 0) }
    ensures count { IfOk result (λ counts. vec_len counts ≡ count) }
{
    vec![in alloc; 0u64; count]
}

/// One more; a count stays at its last value.
pub(crate) fn one_more(count: u64) -> u64
    ensures { result ≡ capped (count + 1) }
{
    count.saturating_add(1)
}

/// So many more; a count stays at its last value.
pub(crate) fn sum_of(count: u64, more: u64) -> u64
    ensures { result ≡ capped (count + more) }
{
    count.saturating_add(more)
}

/// Counts so many more at a place.
pub(crate) fn add_at(counts: &mut Vec<u64>, place: usize, more: u64)
    requires { place < vec_len counts.old }
    ensures added { AddedAt place more counts.old.items counts.new.items }
    ensures count { vec_len counts.new ≡ vec_len counts.old }
{
    counts[place] = sum_of(counts[place], more);
}

/// Counts one more at a place.
pub(crate) fn count_up(counts: &mut Vec<u64>, place: usize)
    requires { place < vec_len counts.old }
    ensures counted { CountedAt place counts.old.items counts.new.items }
    ensures count { vec_len counts.new ≡ vec_len counts.old }
{
    counts[place] = one_more(counts[place]);
}

/// Counts at each place so many more as are counted there of others.
pub(crate) fn add_all(counts: &mut Vec<u64>, more: &[u64])
    requires { vec_len counts.old ≡ length more.now }
    ensures added { AddedAll more.now counts.old.items counts.new.items }
    ensures count { vec_len counts.new ≡ vec_len counts.old }
{
    for place in 0..more.len() {
        add_at(counts, place, more[place]);
    }
}

/// Adds the end of a line with a count.
pub(crate) fn push_count(text: &mut Vec<u8>, count: u64) -> Mem<()>
    ensures { OnOk result (text.new.items ≡ text.old.items ++ count_end count) }
{
    let mut digits = Buffer::new();
    text.extend_from_slice(b" count ")?;
    text.extend_from_slice(digits.format(count).as_bytes())?;
    text.push(b'\n')?;
    Ok(())
}
