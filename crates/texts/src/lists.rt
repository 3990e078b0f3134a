//! What a text tells.
use machine::row::Row;

// The starts, the accepting states and the rows, in the order of the text.
#[derive(Drop)]
pub struct Entries {
    pub starts: Vec<u8>,
    pub accepts: Vec<u8>,
    pub rows: Vec<Row>,
}
