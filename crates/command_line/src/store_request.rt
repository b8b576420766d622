/// The store of a site, or the folder of the stores of several sites.
#[derive(Drop)]
pub struct StoreRequest {
    /// The path of the file, or of the folder.
    pub path: String,
    /// Whether the stores keep for audits the rows that they no longer need.
    pub keeps: bool,
}
