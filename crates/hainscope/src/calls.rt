// The public calls that ask questions, which the crate `hainscope_c` exports in the form of C. Reading a table and finding a body are the
// crate `table`'s own (`table::reading::read`, `table::body::find_body`).
ghost use Rattle.promises.specs.Calls.{CanStandCall, ReportCall};
ghost use Rattle.hainscope.specs.Refused.{number_told, end_told, stands_told, place_told};

use crate::refused::Refused;
use crate::reporting::{has_room, write_record};
use crate::selecting::ask_selection;
use explain::answers::Method;
use table::accepted_table::AcceptedTable;

// Whether the selection can stand, request r at bit r-1.
pub fn can_stand(table: &[u8], selection: u64) -> Result<bool, Refused>
    ensures { CanStandCall table.now selection (number_told result) (stands_told result) (place_told result) }
{
    let accepted = AcceptedTable::read(table)?;
    ask_selection(accepted, selection)
}

// What a method finds, as a report in the buffer from the start on, and the place after it. Refused: the buffer as it was.
pub fn report(
    method: Method,
    table: &[u8],
    buffer: &mut [u8],
    start: usize,
) -> Result<usize, Refused>
    ensures { ReportCall method table.now buffer.old start (number_told result) (end_told result) buffer.new }
{
    let accepted = AcceptedTable::read(table)?;
    if !has_room(buffer.len(), start, accepted.frame.requests) {
        return Err(Refused::NoRoom);
    }
    let written = write_record(method, accepted, &mut buffer[start..]);
    Ok(start + written)
}
