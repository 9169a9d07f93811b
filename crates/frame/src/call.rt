// The calls, and the bytes that name them.
ghost use Rattle.std.specs.Prelude.{◌≡◌};

pub const SETUP: u8 = 0xA0;

pub const OPEN: u8 = 0xB0;

pub const ADD: u8 = 0xB1;

pub const SWAP: u8 = 0xB2;

pub const WITHDRAW: u8 = 0xB3;

pub const JOIN: u8 = 0xB4;

pub const RELEASE: u8 = 0xB5;

pub const REOPEN: u8 = 0xB6;

pub const PRINT: u8 = 0xB7;

pub const LOOK: u8 = 0xB9;

// What a frame asks for; its first byte names it.
#[derive(Clone, Copy)]
pub(crate) enum Call {
    Setup,
    Open,
    Add,
    Swap,
    Withdraw,
    Join,
    Release,
    Reopen,
    Print,
    Look,
}

impl Call {
    ghost use Rattle.frame.specs.Calls.{call_of, head_answer, head_view};

    // The call that a byte names; none where it names none.
    pub(crate) fn of(byte: u8) -> Option<Call>
        ensures { result ≡ call_of byte }
    {
        match byte {
            SETUP => Some(Call::Setup),
            OPEN => Some(Call::Open),
            ADD => Some(Call::Add),
            SWAP => Some(Call::Swap),
            WITHDRAW => Some(Call::Withdraw),
            JOIN => Some(Call::Join),
            RELEASE => Some(Call::Release),
            REOPEN => Some(Call::Reopen),
            PRINT => Some(Call::Print),
            LOOK => Some(Call::Look),
            _ => None,
        }
    }

    // The call that a frame begins with, and what stands behind its byte; none where it begins
    // with none.
    pub(crate) fn split_first(frame: &[u8]) -> Option<(Call, &[u8])>
        ensures { head_view result ≡ head_answer frame.now }
    {
        let (byte, rest) = frame.split_first()?;
        let call = Call::of(*byte)?;
        Some((call, rest))
    }
}
