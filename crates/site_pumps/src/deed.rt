/// What a pump does with a frame that its site has cut (this project's own).
#[derive(Clone, Copy, Debug, PartialEq, Eq)]
pub enum Deed {
    /// The pump sends it, and then the frames that it holds.
    Deliver,
    /// The pump drops it, and sends the frames that it holds in its place.
    Lose,
    /// The pump sends it twice, and then the frames that it holds.
    Twice,
    /// The pump holds it until the next frame that it doesn't hold, or until the last cut.
    Hold,
}
