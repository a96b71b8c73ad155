// A lent selection, request r at bit r-1, and the question about it.
ghost use Rattle.std.specs.Prelude.{◌≡◌, ◌+◌, length};
ghost use Rattle.promises.specs.Selecting.{bits, above};
ghost use Rattle.hainscope.specs.Written.{verdict_of};

use crate::refused::Refused;
use question::search::can_stand;
use table::accepted_table::AcceptedTable;
use table::limits::{MOST_REQUESTS, MOST_ROWS};

// Spreads the bits of a selection over the requests. Returns what is left of the number above them.
fn spread(selection: u64, requests: &mut [bool]) -> u64
    ensures { (requests.new ≡ bits (length requests.old) selection) × (result ≡ above (length requests.old) selection) }
{
    let mut rest = selection;
    for is_chosen in requests.iter_mut() {
        *is_chosen = rest % 2 == 1;
        rest /= 2;
    }
    rest
}

// Asks about a selection, with a list by request number and a list of places to work on.
fn ask_spread(
    table: AcceptedTable<'_>,
    selection: u64,
    chosen: &mut [bool],
    places: &mut [u16; MOST_ROWS],
) -> Result<bool, Refused>
    requires { length chosen.old ≡ table.frame.requests + 1 }
    ensures { result ≡ verdict_of table.entry.bytes.now table.entry.frame selection }
{
    chosen[0] = true;
    if spread(selection, &mut chosen[1..]) != 0 {
        return Err(Refused::NamesTooMuch);
    }
    Ok(can_stand(table, chosen, places))
}

// Whether a selection of an accepted table's requests can stand, or that it names a request above N.
pub fn ask_selection(table: AcceptedTable<'_>, selection: u64) -> Result<bool, Refused>
    ensures { result ≡ verdict_of table.entry.bytes.now table.entry.frame selection }
{
    let mut chosen = [false; MOST_REQUESTS + 1];
    let mut places = [0; MOST_ROWS];
    ask_spread(
        table,
        selection,
        &mut chosen[..table.frame.requests + 1],
        &mut places,
    )
}
