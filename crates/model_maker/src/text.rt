ghost use Rattle.std.specs.Prelude.{◌≡◌, ◌<◌, ◌^◌, ◌+◌, ◌++◌, IfOk, OnOk, flat_map};
ghost use Rattle.plain_values.specs.Numbered.{numbers_below};
ghost use Rattle.model_maker.specs.Text.{composite_text, first_lines, further_stage, last_lines, middle_lines, pair_lines, part_line, part_lines, parts_text, stage, stages, system_lines, text_of, unit_lines};

use itoa::Buffer;
use plain_values::{List, Mem};
use std::alloc::Global;

/// The text of a model of so many pairs of parts, 1 to 512, in a package `gen`: the system `gen::s.i` has the parts `a1`, `b1`, `a2`, `b2`
/// and so on, each with an event that makes it bad, and is bad where of each pair one part is. So its minimal cut sets are 2 to the
/// number of pairs.
pub fn model_text(alloc: Global, pairs: u32) -> Mem<List<u8>>
    ensures { IfOk result (λ text. text ≡ text_of pairs) }
{
    let mut text = Vec::new(alloc);
    push_parts(&mut text, pairs)?;
    push_composite(&mut text, pairs)?;
    List::of(text)
}

/// Adds the lines of the system up to its parts.
fn push_parts(text: &mut Vec<u8>, pairs: u32) -> Mem<()>
    ensures { OnOk result (text.new.items ≡ text.old.items ++ parts_text pairs) }
{
    push_first(text)?;
    push_pairs(text, pairs)
}

/// Adds the lines behind the parts.
fn push_composite(text: &mut Vec<u8>, pairs: u32) -> Mem<()>
    ensures { OnOk result (text.new.items ≡ text.old.items ++ composite_text pairs) }
{
    push_middle(text)?;
    push_stages(text, pairs)?;
    push_last(text)
}

/// Adds the stages.
fn push_stages(text: &mut Vec<u8>, pairs: u32) -> Mem<()>
    ensures { OnOk result (text.new.items ≡ text.old.items ++ stages pairs) }
{
    push_stage(text, 1)?;
    push_further(text, pairs.saturating_sub(1))
}

/// Adds the lines before the parts.
fn push_first(text: &mut Vec<u8>) -> Mem<()>
    ensures { OnOk result (text.new.items ≡ text.old.items ++ first_lines) }
{
    push_unit(text)?;
    push_part(text)?;
    push_system(text)
}

fn push_unit(text: &mut Vec<u8>) -> Mem<()>
    ensures { OnOk result (text.new.items ≡ text.old.items ++ unit_lines) }
{
    text.extend_from_slice(
        b"package gen\npublic\nannex EMV2 {**\nerror behavior unit\nevents e: error event;\nstates ok: initial state; bad: state;\ntransitions ok -[e]-> bad;\nend behavior;\n",
    )?;
    Ok(())
}

fn push_part(text: &mut Vec<u8>) -> Mem<()>
    ensures { OnOk result (text.new.items ≡ text.old.items ++ part_lines) }
{
    text.extend_from_slice(
        b"error behavior whole\nstates ok: initial state; bad: state;\nend behavior;\n**};\ndevice part\nannex EMV2 {** use behavior gen::unit; **};\nend part;\n",
    )?;
    Ok(())
}

fn push_system(text: &mut Vec<u8>) -> Mem<()>
    ensures { OnOk result (text.new.items ≡ text.old.items ++ system_lines) }
{
    text.extend_from_slice(b"system s\nend s;\nsystem implementation s.i\nsubcomponents\n")?;
    Ok(())
}

fn push_middle(text: &mut Vec<u8>) -> Mem<()>
    ensures { OnOk result (text.new.items ≡ text.old.items ++ middle_lines) }
{
    text.extend_from_slice(
        b"annex EMV2 {**\nuse behavior gen::whole;\ncomposite error behavior\nstates [",
    )?;
    Ok(())
}

fn push_last(text: &mut Vec<u8>) -> Mem<()>
    ensures { OnOk result (text.new.items ≡ text.old.items ++ last_lines) }
{
    text.extend_from_slice(b"]-> bad;\nend composite;\n**};\nend s.i;\nend gen;\n")?;
    Ok(())
}

/// Adds the lines of so many pairs of parts.
fn push_pairs(text: &mut Vec<u8>, pairs: u32) -> Mem<()>
    ensures { OnOk result (text.new.items ≡ text.old.items ++ flat_map (λ k. pair_lines (k + 1)) (numbers_below pairs)) }
{
    for k in 0..pairs {
        push_pair(text, k + 1)?;
    }
    Ok(())
}

fn push_pair(text: &mut Vec<u8>, k: u32) -> Mem<()>
    ensures { OnOk result (text.new.items ≡ text.old.items ++ pair_lines k) }
{
    push_part_line(text, b"a", k)?;
    push_part_line(text, b"b", k)
}

/// Adds the line of a part.
fn push_part_line(text: &mut Vec<u8>, letter: &[u8], k: u32) -> Mem<()>
    ensures { OnOk result (text.new.items ≡ text.old.items ++ part_line letter.now k) }
{
    let mut buffer = Buffer::new();
    let number = buffer.format(k).as_bytes();
    text.extend_from_slice(letter)?;
    text.extend_from_slice(number)?;
    text.extend_from_slice(b": device part;\n")?;
    Ok(())
}

/// Adds so many stages behind the first.
fn push_further(text: &mut Vec<u8>, more: u32) -> Mem<()>
    requires { more + 1 < 2 ^ 32 }
    ensures { OnOk result (text.new.items ≡ text.old.items ++ flat_map (λ k. further_stage (k + 2)) (numbers_below more)) }
{
    for k in 0..more {
        push_further_stage(text, k + 2)?;
    }
    Ok(())
}

fn push_further_stage(text: &mut Vec<u8>, k: u32) -> Mem<()>
    ensures { OnOk result (text.new.items ≡ text.old.items ++ further_stage k) }
{
    text.extend_from_slice(b" and ")?;
    push_stage(text, k)
}

/// Adds a stage: one part of a pair is bad.
fn push_stage(text: &mut Vec<u8>, k: u32) -> Mem<()>
    ensures { OnOk result (text.new.items ≡ text.old.items ++ stage k) }
{
    let mut buffer = Buffer::new();
    let number = buffer.format(k).as_bytes();
    text.extend_from_slice(b"(a")?;
    text.extend_from_slice(number)?;
    text.extend_from_slice(b".bad or b")?;
    text.extend_from_slice(number)?;
    text.extend_from_slice(b".bad)")?;
    Ok(())
}
