// The reading of a table: accepted with its frame, or refused with fault and place.
ghost use Rattle.std.specs.Prelude.{◌≡◌};
ghost use Rattle.table.specs.Reading.{reading, ending_of};

use crate::limits::MOST_BYTES;
use crate::record::{Frame, Phase, State};
use crate::refusals::{Fault, Refusal};
use crate::sequence::step;
use crate::words::number;

// The reading where no byte is left at `end`.
#[tactic(auto, unfolding(crate::specs::Reading::ending_of))]
fn ending(phase: Phase, frame: Frame, end: usize) -> Result<Frame, Refusal>
    ensures { result ≡ ending_of phase frame end }
{
    match phase {
        Phase::Start => Err(Refusal {
            fault: Fault::NoHead,
            place: 0,
        }),
        Phase::Rows | Phase::Ordered => Err(Refusal {
            fault: Fault::OutOfSequence,
            place: end,
        }),
        Phase::Checked => Ok(frame),
    }
}

// Reads a table. Every table is answered: it is accepted with its frame, or refused with the first fault and
// place that document 01's tests give it.
#[tactic(auto, unfolding(crate::specs::Reading::reading))]
pub fn read(table: &[u8]) -> Result<Frame, Refusal>
    ensures { result ≡ reading table.now }
{
    if MOST_BYTES < table.len() {
        return Err(Refusal {
            fault: Fault::TooLong,
            place: 0,
        });
    }
    let mut at = 0;
    let mut state = State {
        phase: Phase::Start,
        frame: Frame {
            variables: 0,
            requests: 0,
            rows: 0,
            order: 0,
        },
    };
    // Kept: where the next record begins stands in the record before it, which is tested first: an iterator of records would have the tests in it.
    while at < table.len() {
        state = step(table, at, state).map_err(|fault| Refusal { fault, place: at })?;
        at += 4 + number(table, at);
    }
    ending(state.phase, state.frame, table.len())
}
