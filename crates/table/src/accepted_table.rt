// An accepted table.
ghost use Rattle.std.specs.Prelude.{◌≡◌, Ok, Err, MatchResult};
ghost use Rattle.table.specs.Reading.{reading};

use crate::reading::read;
use crate::record::Frame;
use crate::refusals::Refusal;

// An accepted table: its bytes, and the frame that it was accepted with.
#[derive(Clone, Copy)]
pub struct AcceptedTable<'a> {
    pub bytes: &'a [u8],
    pub frame: Frame,
    ghost accepted: { reading bytes.now ≡ Ok frame },
}

impl<'a> AcceptedTable<'a> {
    // Reads a table: accepted, or why it is refused.
    pub fn read(table: &'a [u8]) -> Result<Self, Refusal>
        ensures { MatchResult result (λ accepted. accepted.bytes.now ≡ table.now) (λ refusal. reading table.now ≡ Err refusal) }
    {
        let frame = read(table)?;
        Ok(AcceptedTable {
            bytes: table,
            frame,
        })
    }
}
