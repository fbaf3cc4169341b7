/// How the cells of an array stand in a file.
#[derive(Clone, Copy, Debug, PartialEq, Eq)]
pub enum Form {
    /// In decimal, separated by white space.
    Text,
    /// As bytes of two's complement, least significant byte first.
    Raw,
}
