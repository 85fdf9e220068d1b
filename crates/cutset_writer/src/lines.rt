ghost use Rattle.std.specs.Prelude.{◌≡◌, ◌+◌, ◌≤◌, ◌++◌, ◌∷◌, IfSome, Some, length, decimal, option_map, vec_capacity, vec_len};
ghost use Rattle.fault_system.specs.Systems.{event_name};
ghost use Rattle.cutset_lister.specs.SetText.{set_text};
ghost use Rattle.cutset_writer.specs.Text.{form_text, more_line, set_line};
ghost use Rattle.page_tokens.specs.Starts.{start_text};
ghost use Rattle.cutset_writer.specs.inner.Lengths.{most_line};

use crate::form::SetForm;
use cutset_lister::{write_quoted, write_token};
use fault_system::FaultSystem;
use itoa::Buffer;
use page_tokens::put_page_token;

/// How many bytes the line of a set of events has at most; none where that is too large a number.
pub(crate) fn longest_line(system: &FaultSystem) -> Option<usize>
    ensures { IfSome result (λ most. most ≡ most_line system.now) }
{
    let mut most: usize = 64;
    for number in 0..system.events() {
        most = most.checked_add(name_length(system, number))?;
        most = most.checked_add(3)?;
    }
    Some(most)
}

fn name_length(system: &FaultSystem, number: u32) -> usize
    ensures { result ≡ length (event_name system.now number) }
{
    match system.event(number) {
        Some(event) => event.name.items().len(),
        None => 0,
    }
}

/// Puts the line of a set into a buffer that has room for it.
pub(crate) fn put_line(form: SetForm, system: &FaultSystem, set: &[u32], line: &mut Vec<u8>)
    requires { length (set_line form system.now set.now) ≤ vec_capacity line.old }
    ensures text { line.new.items ≡ set_line form system.now set.now }
    ensures room { vec_capacity line.old ≤ vec_capacity line.new }
{
    line.clear();
    put_size(set.len(), line);
    put_set(form, system, set, line);
    line.push(b'\n').unwrap();
}

/// Puts the line that says that a further set follows, with the token that names the set behind which the next page begins, into a
/// buffer that has room for it.
pub(crate) fn put_more(
    system: &FaultSystem,
    key: &[u8; 64],
    set: Option<&[u32]>,
    line: &mut Vec<u8>,
)
    requires { length (start_text system.now (option_map (λ s. s.now) set)) + 74 ≤ vec_capacity line.old }
    ensures text { line.new.items ≡ more_line (Some key.now) system.now (option_map (λ s. s.now) set.entry) }
    ensures room { vec_capacity line.old ≤ vec_capacity line.new }
{
    line.clear();
    line.extend_from_slice(b"more ").unwrap();
    put_page_token(system, key, set, line);
    line.push(b'\n').unwrap();
}

/// Adds a number to a buffer that has room for it.
fn put_size(size: usize, line: &mut Vec<u8>)
    requires { vec_len line.old + length (decimal size) ≤ vec_capacity line.old }
    ensures text { line.new.items ≡ line.old.items ++ decimal size }
    ensures room { vec_capacity line.old ≤ vec_capacity line.new }
{
    let mut digits = Buffer::new();
    line.extend_from_slice(digits.format(size).as_bytes())
        .unwrap();
}

/// Adds a set to a buffer that has room for it.
fn put_set(form: SetForm, system: &FaultSystem, set: &[u32], line: &mut Vec<u8>)
    requires { vec_len line.old + length (form_text form system.now set.now) ≤ vec_capacity line.old }
    ensures text { line.new.items ≡ line.old.items ++ form_text form system.now set.now }
    ensures room { vec_capacity line.old ≤ vec_capacity line.new }
{
    match form {
        SetForm::Token => put_token(system, set, line),
        SetForm::Quoted => write_quoted(system, set, line).unwrap(),
    }
}

/// Adds a blank and the text of a set to a buffer that has room for them.
fn put_token(system: &FaultSystem, set: &[u32], line: &mut Vec<u8>)
    requires { vec_len line.old + (1 + length (set_text system.now set.now)) ≤ vec_capacity line.old }
    ensures text { line.new.items ≡ line.old.items ++ (32 ∷ set_text system.now set.now) }
    ensures room { vec_capacity line.old ≤ vec_capacity line.new }
{
    line.push(b' ').unwrap();
    write_token(system, set, line).unwrap();
}
