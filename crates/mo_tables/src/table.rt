//! Tables of words, and the search in them.

ghost use Rattle.std.specs.Prelude.{◌≡◌, IsTrue};
ghost use Rattle.mo_tables.specs.Table.{code_of, ascends};

/// A row of a table of words.
#[derive(Clone, Copy)]
pub struct Row {
    pub name: &'static str,
    /// The number by which the word goes elsewhere, its place in its table.
    pub code: u16,
}

/// The code of the row with that name, or none where no row has it. Takes no memory, and looks at a number of
/// rows that is logarithmic in the length of the table.
pub fn find(table: &[Row], text: &[u8]) -> Option<u16>
    requires { IsTrue (ascends table.now) }
    ensures { result ≡ code_of table.now text.now }
{
    match table.binary_search_by(|row| row.name.as_bytes().cmp(&text)) {
        Ok(at) => Some(table[at].code),
        Err(_) => None,
    }
}
