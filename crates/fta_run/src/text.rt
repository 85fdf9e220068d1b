ghost use Rattle.std.specs.Prelude.{◌≡◌, ◌++◌, IfOk, OnOk, length};
ghost use Rattle.fta_run.specs.Text.{number_line, numbers_text};

use fault_system::FaultSystem;
use itoa::Buffer;
use plain_values::Mem;
use std::alloc::Global;

/// The lines of the numbers of so many components, and of the facts and events of a system.
pub fn numbers_of(alloc: Global, components: u32, system: &FaultSystem) -> Mem<Vec<u8>>
    ensures { IfOk result (λ text. text.items ≡ numbers_text components (length system.now.facts) (length system.now.events)) }
{
    numbers_text(alloc, components, system.facts(), system.events())
}

/// The lines of the numbers of components, facts and events.
fn numbers_text(alloc: Global, components: u32, facts: u32, events: u32) -> Mem<Vec<u8>>
    ensures { IfOk result (λ text. text.items ≡ numbers_text components facts events) }
{
    let mut text = Vec::new(alloc);
    push_number(&mut text, b"components", components)?;
    push_number(&mut text, b"facts", facts)?;
    push_number(&mut text, b"events", events)?;
    Ok(text)
}

fn push_number(text: &mut Vec<u8>, name: &[u8], number: u32) -> Mem<()>
    ensures { OnOk result (text.new.items ≡ text.old.items ++ number_line name.now number) }
{
    let mut buffer = Buffer::new();
    text.extend_from_slice(name)?;
    text.push(b' ')?;
    text.extend_from_slice(buffer.format(number).as_bytes())?;
    text.push(b'\n')?;
    Ok(())
}
