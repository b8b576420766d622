use dots::Interface;

/// A member that is offered a call.
#[derive(Debug, Drop, PartialEq, Eq)]
pub struct Offer {
    /// The interface of the member that is offered.
    pub interface: Interface,
    /// The penalty of the member that is offered, 0 to 2,147,483,647.
    pub penalty: u32,
}
