/// A piece of a text: byte places from 0, the line and column of its start from 1.
///
/// A line ends with a line feed; columns count bytes.
#[derive(Clone, Copy, Debug, PartialEq, Eq)]
pub struct Span {
    pub start: u32,
    pub end: u32,
    pub line: u32,
    pub column: u32,
}
