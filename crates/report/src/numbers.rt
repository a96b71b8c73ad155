// The request numbers of a report.
ghost use Rattle.report.specs.Written.{Room, NumbersWritten};

use crate::bytes::put;

// The numbers of the chosen requests, stored behind a report's first 12 bytes in the order's order. Gives how many there are.
pub fn put_numbers(part: &mut [u8], order: &[u16], flags: &[bool]) -> usize
    requires { Room part.old order.now flags.now }
    ensures { NumbersWritten order.now flags.now part.old part.new result }
{
    // Kept: how many are stored is the place of the next and the answer too; a chain that numbers the chosen ones would not tell it at its end.
    let mut k = 0;
    for (&number, &chosen) in order.iter().zip(flags) {
        if chosen {
            put(part, 12 + 2 * k, &number.to_le_bytes());
            k += 1;
        }
    }
    k
}
