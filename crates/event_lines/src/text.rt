ghost use Rattle.std.specs.Prelude.{◌≡◌, ◌<◌, ◌++◌, IfOk, OnOk};
ghost use Rattle.fmea_rows.specs.Text.{rate_of, rate_text};
ghost use Rattle.event_lines.specs.Text.{byte_text, event_line, events_text, file_word, kind_word, origin_at, spot_text};

use event_origins::{EventOrigin, OriginKind};
use itoa::Buffer;
use model_phases::EventModel;
use plain_values::{Mem, Spot, Word};
use property_reader::{Rate, rate_word};
use std::alloc::Global;

/// The text on the events of a model in files of these names, in their order: for each a line of its name, its kind, its rate, and the
/// file and the byte (from 0) of its declaration; and the line `end`.
pub fn events_text(alloc: Global, names: &[Word], model: &EventModel) -> Mem<Vec<u8>>
    ensures { IfOk result (λ text. text.items ≡ events_text names.now model.now) }
{
    let mut text = Vec::new(alloc);
    for event in 0..model.flat.system.events() {
        push_line(&mut text, names, model, event)?;
    }
    text.extend_from_slice(b"end\n")?;
    Ok(text)
}

/// Adds the line of an event.
fn push_line(text: &mut Vec<u8>, names: &[Word], model: &EventModel, event: u32) -> Mem<()>
    ensures { OnOk result (text.new.items ≡ text.old.items ++ event_line names.now model.now event) }
{
    let origin = origin_at(model.origins.items(), event);
    text.extend_from_slice(model.flat.system.event_name(event))?;
    text.push(b' ')?;
    text.extend_from_slice(kind_word(origin.kind))?;
    text.push(b' ')?;
    push_rate(text, model.flat.rates.items(), event)?;
    push_spot(text, names, origin.spot)?;
    text.push(b'\n')?;
    Ok(())
}

/// The origin of an event.
fn origin_at(origins: &[EventOrigin], event: u32) -> EventOrigin
    ensures { result ≡ origin_at origins.now event }
{
    match origins.get(event as usize) {
        Some(origin) => *origin,
        None => EventOrigin {
            kind: OriginKind::Error,
            spot: None,
        },
    }
}

/// The word of a kind.
fn kind_word(kind: OriginKind) -> &'static [u8]
    ensures { result.now ≡ kind_word kind }
{
    match kind {
        OriginKind::Error => b"error",
        OriginKind::Source => b"source",
        OriginKind::External => b"external",
    }
}

/// Adds the rate of an event.
fn push_rate(text: &mut Vec<u8>, rates: &[Rate], event: u32) -> Mem<()>
    ensures { OnOk result (text.new.items ≡ text.old.items ++ rate_text (rate_of rates.now event)) }
{
    match rates.get(event as usize) {
        Some(rate) => {
            text.extend_from_slice(rate_word(rate.kind))?;
            text.extend_from_slice(rate.text.items())?;
        }
        None => text.extend_from_slice(b"prob=1")?,
    }
    Ok(())
}

/// Adds where an event is declared.
fn push_spot(text: &mut Vec<u8>, names: &[Word], spot: Option<Spot>) -> Mem<()>
    ensures { OnOk result (text.new.items ≡ text.old.items ++ spot_text names.now spot) }
{
    match spot {
        Some(spot) => push_byte(text, file_word(names, spot.file), spot.at),
        None => Ok(()),
    }
}

/// Adds a byte of a file.
fn push_byte(text: &mut Vec<u8>, file: &[u8], at: u32) -> Mem<()>
    ensures { OnOk result (text.new.items ≡ text.old.items ++ byte_text file.now at) }
{
    let mut buffer = Buffer::new();
    text.push(b' ')?;
    text.extend_from_slice(file)?;
    text.push(b':')?;
    text.extend_from_slice(buffer.format(at).as_bytes())?;
    Ok(())
}

/// The file word of a number; empty where there is none.
pub fn file_word(files: &[Word], number: u32) -> &[u8]
    ensures { result.now ≡ file_word files.now number }
{
    match files.get(number as usize) {
        Some(file) => file.items(),
        None => &[],
    }
}
