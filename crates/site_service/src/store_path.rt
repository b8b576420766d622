/// Where a store is, or the folder of several, and whether a store keeps the rows in whose place a base is put.
#[derive(Clone, Copy)]
pub struct StorePath<'a> {
    /// The path of the file, or of the folder.
    pub path: &'a str,
    /// Whether a store begins to keep rows, if it doesn't yet.
    pub keeps: bool,
}
