// The C functions of libhainscope.a: each hands back the refusal number, 0 where the call is accepted, and sets the place.
// Kept: numbers in place of a Result, and four report calls that differ in the method alone, since C calls them by these names and takes numbers.
#![tactic(auto)]

ghost use Rattle.std.specs.Prelude.{◌≡◌};
ghost use Rattle.explain.specs.declared.answers.Method.TheVariants.{ConflictByHalving, ConflictOneByOne, RelaxationByHalving, RelaxationOneByOne};
ghost use Rattle.promises.specs.Calls.{ReadCall, BodyCall, CanStandCall, ReportCall};
ghost use Rattle.hainscope.specs.Refused.{number_of, place_of};

use explain::answers::Method;
use hainscope::calls::{can_stand, report};
use hainscope::refused::Refused;
use table::body::find_body;
use table::reading::read;

// A refused call: the refusal's number, and its place.
fn refuse(refused: Refused, place: &mut usize) -> u32
    ensures { (result ≡ number_of refused) × (place.new ≡ place_of refused) }
{
    *place = refused.place();
    refused.number()
}

// Reads a table: 0 and place 0 where it is accepted, else the refusal's number and place.
#[tactic(auto, unfolding(table::specs::Reading::number_of_reading, table::specs::Reading::place_of_reading))]
#[unsafe(no_mangle)]
pub extern "C" fn hainscope_read(table: &[u8], place: &mut usize) -> u32
    ensures { ReadCall table.now result place.new }
{
    match read(table) {
        Ok(_) => {
            *place = 0;
            0
        }
        Err(refusal) => refuse(Refused::from(refusal), place),
    }
}

// Finds the body of the record of a number, the first being 0: 0, the place of its first byte and its length, or
// the refusal's number and place with length 0.
#[tactic(auto, unfolding(table::specs::Body::number_of_stretch, table::specs::Body::place_of_stretch, table::specs::Body::size_of_stretch))]
#[unsafe(no_mangle)]
pub extern "C" fn hainscope_body(
    table: &[u8],
    number: usize,
    length: &mut usize,
    place: &mut usize,
) -> u32
    ensures { BodyCall table.now number result length.new place.new }
{
    match find_body(table, number) {
        Ok(found) => {
            *length = found.length;
            *place = found.start;
            0
        }
        Err(refusal) => {
            *length = 0;
            refuse(Refused::from(refusal), place)
        }
    }
}

// Whether the selection can stand: 1 or 0 in `stands`, and 0 there where the call is refused.
#[unsafe(no_mangle)]
pub extern "C" fn hainscope_can_stand(
    table: &[u8],
    selection: u64,
    stands: &mut u32,
    place: &mut usize,
) -> u32
    ensures { CanStandCall table.now selection result stands.new place.new }
{
    match can_stand(table, selection) {
        Ok(yes) => {
            *stands = u32::from(yes);
            *place = 0;
            0
        }
        Err(refused) => {
            *stands = 0;
            refuse(refused, place)
        }
    }
}

// What a method finds, as a report in the buffer from the start on; the place after it. Refused: the buffer as it was.
fn make_report(
    method: Method,
    table: &[u8],
    buffer: &mut [u8],
    start: usize,
    place: &mut usize,
) -> u32
    ensures { ReportCall method table.now buffer.old start result place.new buffer.new }
{
    match report(method, table, buffer, start) {
        Ok(end) => {
            *place = end;
            0
        }
        Err(refused) => refuse(refused, place),
    }
}

// The preferred conflict, by halving, as a report in the buffer from the start on; the place after it. Refused: the
// buffer as it was.
#[unsafe(no_mangle)]
pub extern "C" fn hainscope_conflict(
    table: &[u8],
    report: &mut [u8],
    start: usize,
    place: &mut usize,
) -> u32
    ensures { ReportCall ConflictByHalving table.now report.old start result place.new report.new }
{
    make_report(Method::ConflictByHalving, table, report, start, place)
}

// The preferred conflict, one by one, as a report in the buffer from the start on; the place after it. Refused: the
// buffer as it was.
#[unsafe(no_mangle)]
pub extern "C" fn hainscope_conflict_one_by_one(
    table: &[u8],
    report: &mut [u8],
    start: usize,
    place: &mut usize,
) -> u32
    ensures { ReportCall ConflictOneByOne table.now report.old start result place.new report.new }
{
    make_report(Method::ConflictOneByOne, table, report, start, place)
}

// The preferred relaxation, by halving, as a report in the buffer from the start on; the place after it. Refused: the
// buffer as it was.
#[unsafe(no_mangle)]
pub extern "C" fn hainscope_relaxation(
    table: &[u8],
    report: &mut [u8],
    start: usize,
    place: &mut usize,
) -> u32
    ensures { ReportCall RelaxationByHalving table.now report.old start result place.new report.new }
{
    make_report(Method::RelaxationByHalving, table, report, start, place)
}

// The preferred relaxation, one by one, as a report in the buffer from the start on; the place after it. Refused: the
// buffer as it was.
#[unsafe(no_mangle)]
pub extern "C" fn hainscope_relaxation_one_by_one(
    table: &[u8],
    report: &mut [u8],
    start: usize,
    place: &mut usize,
) -> u32
    ensures { ReportCall RelaxationOneByOne table.now report.old start result place.new report.new }
{
    make_report(Method::RelaxationOneByOne, table, report, start, place)
}
