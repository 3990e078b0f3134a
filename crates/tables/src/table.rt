//! The view of a table: bytes that were found lawful, and the entries of their sections.
ghost use Rattle.entries.specs.Files.{Holds};
ghost use Rattle.tables.specs.Tables.{table_layout};

// A view of the caller's bytes. It can only stand over the bytes of a lawful table.
#[derive(Clone, Copy)]
pub struct Table<'a> {
    pub(crate) bytes: &'a [u8],
    pub(crate) starts: &'a [u8],
    pub(crate) accepts: &'a [u8],
    pub(crate) rows: &'a [u8],
    ghost lawful: { Holds table_layout bytes.now starts.now accepts.now rows.now },
}
