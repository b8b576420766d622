/// A store whose steps are to be listed.
#[derive(Drop)]
pub struct StepsRequest {
    /// The path of the store's file.
    pub path: String,
    /// Whether each frame is listed in hexadecimal, too.
    pub frames: bool,
}
