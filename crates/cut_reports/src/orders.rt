ghost use Rattle.std.specs.Prelude.{◌≡◌, ◌+◌, ◌++◌, Some, None, IfOk, OnOk, codes, cond, decimal, length, slice_index_or, vec_len};
ghost use Rattle.std.specs.List.{between};
ghost use Rattle.fta_outside.specs.Counts.{capped};
ghost use Rattle.cut_reports.specs.inner.Counts.{AddedAll};
ghost use Rattle.cut_reports.specs.inner.Numbered.{numbered_text};
ghost use Rattle.cut_reports.specs.inner.Orders.{AreOrders, counted_order, order_line, orders_text};

use crate::counting::{add_all, count_up, no_counts, one_more, push_count, sum_of};
use fta_outside::{FamilyCounts, Report, ReportFailed, WriteError};
use itoa::Buffer;
use plain_values::{Mem, Name};
use std::alloc::Global;

/// The report `orders`: how many sets there are of each size.
#[derive(Drop)]
pub struct OrderProfile {
    alloc: Global,
    begun: bool,
    empty: u64,
    counts: Vec<u64>,
}

impl OrderProfile {
    /// It keeps the allocator, and takes no memory.
    pub fn new(alloc: Global) -> OrderProfile {
        OrderProfile {
            alloc,
            begun: false,
            empty: 0,
            counts: Vec::new(alloc),
        }
    }
}

impl Report for OrderProfile {
    ghost stands_for = { λ report sets. AreOrders report.empty report.counts.items sets };

    ghost text = { λ _ sets names. orders_text sets names };

    ghost width = { λ report. cond report.begun (Some (vec_len report.counts)) None };

    ghost report_faults = { λ _. 0 };

    ghost label = { λ _. codes "orders" };

    fn name(&self) -> &[u8] {
        b"orders"
    }

    fn begin(&mut self, events: usize) -> Result<(), WriteError> {
        self.begun = false;
        match no_counts(self.alloc, events) {
            Ok(counts) => {
                self.empty = 0;
                self.counts = counts;
                self.begun = true;
                Ok(())
            }
            Err(_) => Err(WriteError::Memory),
        }
    }

    fn take(&mut self, set: &[u32]) -> Result<(), ReportFailed> {
        if set.is_empty() {
            self.empty = one_more(self.empty);
        } else {
            count_up(&mut self.counts, set.len() - 1);
        }
        Ok(())
    }

    fn takes_families(&self) -> bool {
        true
    }

    fn take_family(&mut self, counts: &FamilyCounts) -> bool {
        self.empty = add_orders(self.empty, &mut self.counts, counts.orders.as_slice());
        true
    }

    fn finish(&mut self, names: &[Name]) -> Result<Vec<u8>, WriteError> {
        match text_of(self.alloc, self.empty, self.counts.as_slice(), names) {
            Ok(text) => Ok(text),
            Err(_) => {
                self.begun = false;
                Err(WriteError::Memory)
            }
        }
    }
}

/// Adds the counts of the sizes of other sets, of which the first is that of the empty ones; gives how many are empty then.
fn add_orders(empty: u64, counts: &mut Vec<u64>, orders: &[u64]) -> u64
    requires { length orders.now ≡ vec_len counts.old + 1 }
    ensures empty { result ≡ capped (empty + slice_index_or orders.now 0 0) }
    ensures added { AddedAll (between 1 (length orders.now) orders.now) counts.old.items counts.new.items }
    ensures count { vec_len counts.new ≡ vec_len counts.old }
{
    add_all(counts, &orders[1..]);
    sum_of(empty, orders[0])
}

/// The lines of the sizes that occur.
fn text_of(alloc: Global, empty: u64, counts: &[u64], names: &[Name]) -> Mem<Vec<u8>>
    requires { length counts.now ≡ length names.now }
    ensures { IfOk result (λ text. text.items ≡ order_line 0 empty ++ numbered_text (λ place name. counted_order counts.now place) 0 names.now) }
{
    let mut text = Vec::new(alloc);
    push_order(&mut text, 0, empty)?;
    for i in 0..names.len() {
        push_order(&mut text, i + 1, counts[i])?;
    }
    Ok(text)
}

/// Adds the line of a size of which there are sets.
fn push_order(text: &mut Vec<u8>, size: usize, count: u64) -> Mem<()>
    ensures { OnOk result (text.new.items ≡ text.old.items ++ order_line size count) }
{
    if count == 0 {
        return Ok(());
    }
    push_size(text, size)?;
    push_count(text, count)
}

/// Adds the front of the line of a size.
fn push_size(text: &mut Vec<u8>, size: usize) -> Mem<()>
    ensures { OnOk result (text.new.items ≡ text.old.items ++ (codes "order " ++ decimal size)) }
{
    let mut digits = Buffer::new();
    text.extend_from_slice(b"order ")?;
    text.extend_from_slice(digits.format(size).as_bytes())?;
    Ok(())
}
