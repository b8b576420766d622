use crate::Card;

/// What both sides of a hello know: both nonces and both cards.
#[derive(Clone, Copy, PartialEq, Eq)]
pub struct Transcript {
    /// The nonce of the site that dials.
    pub dialer_nonce: [u8; 32],
    /// The nonce of the site that accepts.
    pub acceptor_nonce: [u8; 32],
    /// The card of the site that accepts.
    pub acceptor: Card,
    /// The card of the site that dials.
    pub dialer: Card,
}
