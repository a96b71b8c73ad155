// A report: the room for it tested, the method worked over the table's order, and its record written.
ghost use Rattle.std.specs.Prelude.{◌≡◌, ◌&&◌, ◌+◌, ◌*◌, ◌-◌, ◌≤◌, leb, length};
ghost use Rattle.table.specs.Words.{words};
ghost use Rattle.table.specs.Limits.{most_requests};
ghost use Rattle.report.specs.Report.{number_of};
ghost use Rattle.promises.specs.Reports.{kind_by};
ghost use Rattle.hainscope.specs.Written.{RecordWritten};

use explain::answers::{Method, answer};
use explain::ranked::Ranked;
use explain::workspace::Workspace;
use report::{Head, Kind, write};
use table::accepted_table::AcceptedTable;
use table::limits::{MOST_REQUESTS, MOST_ROWS};
use table::words::{value_in, words};

// Copies the words from a place of the table on into `order`.
fn load(table: &[u8], from: usize, order: &mut [u16])
    requires { from + 2 * length order.old ≤ length table.now }
    ensures { order.new ≡ words (length order.old) table.now from }
{
    let loaded = words(table, from, order.len());
    for (place, word) in loaded.iter().enumerate() {
        order[place] = value_in(word);
    }
}

// The kind of a method's record.
fn record_kind(method: Method) -> Kind
    ensures { number_of result ≡ kind_by method }
{
    match method {
        Method::ConflictByHalving | Method::ConflictOneByOne => Kind::Conflict,
        Method::RelaxationByHalving | Method::RelaxationOneByOne => Kind::Relaxation,
    }
}

// Works a method and writes its record, with lists to work on: the order, its flags, and what a question needs.
fn write_answer(
    method: Method,
    table: AcceptedTable<'_>,
    part: &mut [u8],
    order: &mut [u16],
    flags: &mut [bool],
    workspace: &mut Workspace,
) -> usize
    requires { (12 + 2 * table.frame.requests ≤ length part.old)
        × (length order.old ≡ table.frame.requests) × (length flags.old ≡ table.frame.requests) }
    ensures { RecordWritten method table.entry.bytes.now table.entry.frame part.old part.new result }
{
    load(table.bytes, table.frame.order + 4, order);
    let outcome = answer(method, &Ranked { table, order }, flags, workspace);
    let head = Head {
        kind: u16::from(record_kind(method)),
        status: u16::from(outcome.status),
        count: outcome.asked,
    };
    write(part, head, order, flags)
}

// Works a method over the table's order and writes its record at the part's start. Returns the record's length.
pub fn write_record(method: Method, table: AcceptedTable<'_>, part: &mut [u8]) -> usize
    requires { 12 + 2 * table.frame.requests ≤ length part.old }
    ensures { RecordWritten method table.entry.bytes.now table.entry.frame part.old part.new result }
{
    let requests = table.frame.requests;
    let mut order = [0u16; MOST_REQUESTS];
    let mut flags = [false; MOST_REQUESTS];
    let mut workspace = Workspace {
        chosen: [false; MOST_REQUESTS + 1],
        places: [0; MOST_ROWS],
    };
    write_answer(
        method,
        table,
        part,
        &mut order[..requests],
        &mut flags[..requests],
        &mut workspace,
    )
}

// Whether the start lies within a buffer of this length, with room for the largest report from it on.
pub fn has_room(length: usize, start: usize, requests: usize) -> bool
    requires { requests ≤ most_requests }
    ensures { result ≡ (leb start length && leb (12 + 2 * requests) (length - start)) }
{
    start <= length && 12 + 2 * requests <= length - start
}
