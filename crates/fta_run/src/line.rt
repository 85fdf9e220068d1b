ghost use Rattle.std.specs.Prelude.{◌≡◌, ◌++◌, codes, decimal, map};
ghost use Rattle.fta_outside.specs.inner.Outside.{Writes};
ghost use Rattle.fta_words.specs.inner.Words.{all_names};
ghost use Rattle.fta_run.specs.Line.{constant_text, limit_text, place_text, refusal_text, report_name, stale_text, status_line};

use cut_reports::name_of;
use fta_outside::{Report, Sink, SinkFailed, write_all};
use fta_words::FileWords;
use itoa::Buffer;
use phases::Status;
use plain_values::{Place, Refusal};

/// Writes the line of a status to the error stream, where these files are named and these are the reports; nothing where all was
/// written. It takes no memory.
pub fn write_line<E: Sink>(
    err: &mut E,
    files: &FileWords<'_>,
    reports: &Vec<Box<dyn Report>>,
    status: &Status,
) -> Result<(), SinkFailed>
    ensures { Writes (status_line (all_names files.now) (map label reports.now.items) status.now) result (E.seen err.old) (E.seen err.new) }
{
    match status {
        Status::Done => Ok(()),
        Status::Unmet => Ok(()),
        Status::Usage => write_piece(err, b"aadl_fta: usage\n"),
        Status::Refused(refusal) => write_refusal(err, files, refusal),
        Status::Constant(always) => write_constant(err, *always),
        Status::StaleToken { token, input } => write_stale(err, token, input),
        Status::Unrated(event) => write_unrated(err, event.items()),
        Status::ReadFault(file) => write_unread(err, files.word(*file)),
        Status::WriteFault => write_piece(err, b"aadl_fta: cannot write\n"),
        Status::ReportFault(place) => write_failed(err, report_name(reports, *place)),
        Status::Memory => write_piece(err, b"aadl_fta: out of memory\n"),
    }
}

fn write_constant<E: Sink>(err: &mut E, always: bool) -> Result<(), SinkFailed>
    ensures { Writes (codes "aadl_fta: " ++ (constant_text always ++ codes "\n")) result (E.seen err.old) (E.seen err.new) }
{
    if always {
        write_piece(err, b"aadl_fta: constant true\n")
    } else {
        write_piece(err, b"aadl_fta: constant false\n")
    }
}

fn write_stale<E: Sink>(err: &mut E, token: &[u8; 64], input: &[u8; 64]) -> Result<(), SinkFailed>
    ensures { Writes (codes "aadl_fta: " ++ (stale_text token.now input.now ++ codes "\n")) result (E.seen err.old) (E.seen err.new) }
{
    write_two(err, b"aadl_fta: K2 StaleToken ", token)?;
    write_input(err, input)
}

fn write_input<E: Sink>(err: &mut E, input: &[u8; 64]) -> Result<(), SinkFailed>
    ensures { Writes (codes " " ++ (input.now ++ codes "\n")) result (E.seen err.old) (E.seen err.new) }
{
    write_two(err, b" ", input)?;
    write_piece(err, b"\n")
}

fn write_unrated<E: Sink>(err: &mut E, event: &[u8]) -> Result<(), SinkFailed>
    ensures { Writes (codes "aadl_fta: R1 UnratedEvent " ++ (event.now ++ codes "\n")) result (E.seen err.old) (E.seen err.new) }
{
    write_two(err, b"aadl_fta: R1 UnratedEvent ", event)?;
    write_piece(err, b"\n")
}

fn write_unread<E: Sink>(err: &mut E, file: &[u8]) -> Result<(), SinkFailed>
    ensures { Writes (codes "aadl_fta: cannot read " ++ (file.now ++ codes "\n")) result (E.seen err.old) (E.seen err.new) }
{
    write_piece(err, b"aadl_fta: cannot read ")?;
    write_two(err, file, b"\n")
}

fn write_failed<E: Sink>(err: &mut E, name: &[u8]) -> Result<(), SinkFailed>
    ensures { Writes (codes "aadl_fta: report " ++ (name.now ++ codes " failed\n")) result (E.seen err.old) (E.seen err.new) }
{
    write_piece(err, b"aadl_fta: report ")?;
    write_two(err, name, b" failed\n")
}

/// The name of the report at a place.
fn report_name(reports: &Vec<Box<dyn Report>>, place: u32) -> &[u8]
    ensures { result.now ≡ report_name (map label reports.now.items) place }
{
    match reports.get(place as usize) {
        Some(report) => name_of(report),
        None => &[],
    }
}

fn write_refusal<E: Sink>(
    err: &mut E,
    files: &FileWords<'_>,
    refusal: &Refusal,
) -> Result<(), SinkFailed>
    ensures { Writes (codes "aadl_fta: " ++ (refusal_text (all_names files.now) refusal.now ++ codes "\n")) result (E.seen err.old) (E.seen err.new) }
{
    write_two(err, b"aadl_fta: ", refusal.code.text().as_bytes())?;
    write_place_and_limit(err, files, refusal)
}

fn write_place_and_limit<E: Sink>(
    err: &mut E,
    files: &FileWords<'_>,
    refusal: &Refusal,
) -> Result<(), SinkFailed>
    ensures { Writes (place_text (all_names files.now) refusal.now.place ++ (limit_text refusal.now.limit ++ codes "\n")) result (E.seen err.old) (E.seen err.new) }
{
    write_place(err, files, refusal.place)?;
    write_limit(err, refusal.limit)
}

fn write_place<E: Sink>(err: &mut E, files: &FileWords<'_>, place: Place) -> Result<(), SinkFailed>
    ensures { Writes (place_text (all_names files.now) place) result (E.seen err.old) (E.seen err.new) }
{
    match place {
        Place::Words => Ok(()),
        Place::Whole(file) => write_two(err, b" ", files.word(file)),
        Place::At { file, at } => write_byte(err, files.word(file), at),
    }
}

fn write_byte<E: Sink>(err: &mut E, file: &[u8], at: u32) -> Result<(), SinkFailed>
    ensures { Writes (codes " " ++ (file.now ++ (codes ":" ++ decimal at))) result (E.seen err.old) (E.seen err.new) }
{
    write_two(err, b" ", file)?;
    write_number(err, b":", at as u64)
}

fn write_limit<E: Sink>(err: &mut E, limit: u64) -> Result<(), SinkFailed>
    ensures { Writes (limit_text limit ++ codes "\n") result (E.seen err.old) (E.seen err.new) }
{
    if limit == 0 {
        return write_piece(err, b"\n");
    }
    write_number(err, b" over ", limit)?;
    write_piece(err, b"\n")
}

fn write_number<E: Sink>(err: &mut E, sign: &[u8], number: u64) -> Result<(), SinkFailed>
    ensures { Writes (sign.now ++ decimal number) result (E.seen err.old) (E.seen err.new) }
{
    let mut digits = Buffer::new();
    write_two(err, sign, digits.format(number).as_bytes())
}

fn write_two<E: Sink>(err: &mut E, first: &[u8], second: &[u8]) -> Result<(), SinkFailed>
    ensures { Writes (first.now ++ second.now) result (E.seen err.old) (E.seen err.new) }
{
    write_piece(err, first)?;
    write_piece(err, second)
}

fn write_piece<E: Sink>(err: &mut E, piece: &[u8]) -> Result<(), SinkFailed>
    ensures { Writes piece.now result (E.seen err.old) (E.seen err.new) }
{
    write_all(err, piece)
}
