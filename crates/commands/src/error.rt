ghost use Rattle.std.specs.Prelude.{◌≡◌};
ghost use Rattle.commands.specs.Status.{error_head};

use wire::Head;

// Why a request gets an error reply.
#[derive(Clone, Copy, Debug, PartialEq, Eq)]
pub enum ErrorReply {
    InvalidOpcode,
    // the byte of the endpoint message that is at fault
    InvalidParameter { byte: u8 },
    InvalidCommandSize,
}

// The whole reply: an error reply has no data.
impl From<ErrorReply> for Head {
    ghost from_gives = { λ e head. head ≡ error_head e };

    fn from(error: ErrorReply) -> Head {
        match error {
            ErrorReply::InvalidOpcode => Head {
                status: 0x03,
                nmresp: 0,
            },
            ErrorReply::InvalidParameter { byte } => Head {
                status: 0x04,
                nmresp: u32::from(byte) << 8,
            },
            ErrorReply::InvalidCommandSize => Head {
                status: 0x05,
                nmresp: 0,
            },
        }
    }
}
