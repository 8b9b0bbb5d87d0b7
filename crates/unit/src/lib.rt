// A unit of a log: its header or a record. It is validated once all its bytes are there.
#![tactic(auto)]

ghost use Rattle.std.specs.Prelude.{◌≡◌, ◌+◌, ◌≤◌, length};
ghost use Rattle.rules.specs.Log.{unit_size, is_header, header_classes, header_word};
ghost use Rattle.progress.specs.Code.{feed_of, Counted};
ghost use Rattle.validator.specs.Calls.{buffers};
ghost use Rattle.unit.specs.Units.{more, UnitValidated};
ghost use Rattle.unit.specs.Parts.{PartTaken};

use answers::{Verdict, answer_number};
use layout::MAX_CLASSES;
use numbers::word_at;
use opening::open;
use progress::{
    DECLARING, PLAIN_SIZE, Progress, UNIT_SIZE, VERSION_AT, between_units, unit_size, with_part,
};
use record::SIZE;
use validator::step;

const MOST_CLASSES: u8 = MAX_CLASSES as u8;

// Where a header has K.
const CLASSES_AT: usize = 3;

fn wide(byte: u8) -> u64
    ensures { result ≡ byte }
{
    byte as u64
}

// A good header: of version 1, or of version 2 with a word behind it.
fn is_header(bytes: &[u8]) -> bool
    ensures { result ≡ is_header bytes.now }
{
    let size = bytes.len();
    if size < PLAIN_SIZE {
        return false;
    }
    if bytes[0] != 0x4C {
        return false;
    }
    if bytes[1] != 0x48 {
        return false;
    }
    if bytes[CLASSES_AT] < 1 {
        return false;
    }
    if MOST_CLASSES < bytes[CLASSES_AT] {
        return false;
    }
    if bytes[VERSION_AT] == DECLARING {
        return size == UNIT_SIZE;
    }
    if bytes[VERSION_AT] != 1 {
        return false;
    }
    size == PLAIN_SIZE
}

// The number of classes in a header, 0 where it is not a good one.
fn header_classes(bytes: &[u8]) -> u64
    ensures { result ≡ header_classes bytes.now }
{
    if !is_header(bytes) {
        return 0;
    }
    wide(bytes[CLASSES_AT])
}

// The word of a header, 0 where it is not a good one that has one.
fn header_word(bytes: &[u8]) -> u64
    ensures { result ≡ header_word bytes.now }
{
    if !is_header(bytes) {
        return 0;
    }
    if bytes[VERSION_AT] != DECLARING {
        return 0;
    }
    word_at(bytes, PLAIN_SIZE)
}

// One record more; the number stays where it would pass 2 to the 64, which no log under that many bytes brings it to.
fn one_more(number: u64) -> u64
    ensures { result ≡ more number }
{
    if number < u64::MAX {
        return number + 1;
    }
    number
}

// Validates a unit: the header, which opens the desk, or a record.
pub fn validate_unit(
    desk: &mut [u8],
    sheet: &mut [u8],
    seen: &mut [u8],
    history: &mut [u8],
    slip: &mut [u8],
    opened: bool,
    number: u64,
    unit: &[u8],
) -> Progress
    ensures { UnitValidated opened number (buffers desk.old sheet.old seen.old history.old slip.old) unit.now (feed_of result) (buffers desk.new sheet.new seen.new history.new slip.new) × (result.count ≡ 0) }
{
    if opened {
        let answer = answer_number(step(desk, sheet, seen, history, slip, unit));
        return between_units(answer, true, one_more(number));
    }
    match open(
        header_classes(unit),
        header_word(unit),
        desk,
        sheet,
        seen,
        history,
    ) {
        Ok(()) => between_units(Verdict::Clean.number(), true, number),
        Err(refusal) => between_units(refusal.number(), false, number),
    }
}

// Takes a part of a piece, which goes at most to the end of the unit: a unit that it completes is validated.
pub fn take_part(
    desk: &mut [u8],
    sheet: &mut [u8],
    seen: &mut [u8],
    history: &mut [u8],
    slip: &mut [u8],
    p: Progress,
    part: &[u8],
) -> Progress
    requires { Counted p × (p.count + length part.now ≤ unit_size p.opened (feed_of p).loose) }
    ensures { PartTaken (feed_of p) (buffers desk.old sheet.old seen.old history.old slip.old) part.now (feed_of result) (buffers desk.new sheet.new seen.new history.new slip.new) × Counted result }
{
    if p.opened & (part.len() == SIZE) {
        return validate_unit(desk, sheet, seen, history, slip, true, p.number, part);
    }
    let next = with_part(p, part);
    let count = next.count;
    if count < unit_size(next) {
        return next;
    }
    let unit = next.loose;
    validate_unit(
        desk,
        sheet,
        seen,
        history,
        slip,
        p.opened,
        p.number,
        &unit[..count],
    )
}
