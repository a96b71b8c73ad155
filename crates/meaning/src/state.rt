// What a half-made setting tells about a literal, a clause or a row.

// Every completion meets it; it is open; or no completion meets it.
#[derive(Clone, Copy, PartialEq)]
pub enum State {
    Met,
    Open,
    Fails,
}
