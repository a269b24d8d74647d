// Why an input does not serve.
use off_text::OffKind;

/// Why the inputs of a run do not serve.
#[derive(Clone, Copy, Drop)]
pub enum InputIssue<'a> {
    /// There is no file of that name.
    Missing(&'a str),
    /// The folder failed to open or to read the file of that name.
    Failed(&'a str),
    /// The file of that name is longer than 2^30 bytes.
    TooLong(&'a str),
    /// The text of the soup is refused at a byte.
    Off { kind: OffKind, place: u64 },
    /// No box has room for the soup, whose extent is this, in units of its coordinates.
    TooWide(u64),
    /// The text of the mesh is refused at a line.
    Mesh(u64),
    /// The text of the report is refused at a line.
    Report(u64),
    Memory,
}
