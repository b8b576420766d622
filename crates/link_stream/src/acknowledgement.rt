ghost use Rattle.std.specs.Prelude.{◌≡◌, length};
ghost use Rattle.link_stream.specs.Items.{IsAcknowledgement, acknowledgement_bytes};

/// How many bytes an acknowledgement has.
pub const ACKNOWLEDGEMENT_BYTES: usize = 8;

/// What an acceptor sends back over a link.
#[derive(Clone, Copy, PartialEq, Eq)]
pub enum Acknowledgement {
    /// How many bytes it has read since the hello, items that are not whole yet included. A number above 2^64 - 3 is sent as 2^64 - 3.
    Taken(u64),
    /// It has dropped a frame for which it has no room or no memory, and asks for a frame of all that the dialer's site knows.
    Behind,
    /// It has refused a frame, and closes the link.
    Refused,
}

// The bytes of an acknowledgement.
pub(crate) fn bytes_of(acknowledgement: Acknowledgement) -> [u8; ACKNOWLEDGEMENT_BYTES]
    ensures { result ≡ acknowledgement_bytes acknowledgement }
{
    match acknowledgement {
        Acknowledgement::Taken(count) => count.min(u64::MAX - 2).to_be_bytes(),
        Acknowledgement::Behind => (u64::MAX - 1).to_be_bytes(),
        Acknowledgement::Refused => u64::MAX.to_be_bytes(),
    }
}

// The acknowledgement that these bytes are.
pub(crate) fn acknowledgement_in(bytes: &[u8]) -> Acknowledgement
    requires { length bytes.now ≡ ACKNOWLEDGEMENT_BYTES }
    ensures bytes { acknowledgement_bytes result ≡ bytes.now }
    ensures within { IsAcknowledgement result }
{
    let mut number = [0u8; ACKNOWLEDGEMENT_BYTES];
    number.copy_from_slice(bytes);
    let number = u64::from_be_bytes(number);
    if number == u64::MAX {
        Acknowledgement::Refused
    } else if number == u64::MAX - 1 {
        Acknowledgement::Behind
    } else {
        Acknowledgement::Taken(number)
    }
}
