/// The row of a member that a queue shows: for each field the latest value that was set.
#[derive(Clone, Copy, Debug, PartialEq, Eq)]
pub struct Row<'a> {
    /// The penalty; 0 where none was set.
    pub penalty: u32,
    /// Whether the member is paused.
    pub paused: bool,
    /// Why the member is paused; empty where it isn't paused.
    pub reason: &'a [u8],
    /// The member name; empty where none was set.
    pub name: &'a [u8],
    /// The state interface; empty where none was set.
    pub state: &'a [u8],
    /// Whether the member is rung while its device is in use; true where it was never set.
    pub ring: bool,
}
