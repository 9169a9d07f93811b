// A call on a sheet, and what it is answered.
use byte_strings::held::Held;

// A call: the sheet that it may change, and what is given with it.
#[derive(Clone, Copy)]
pub enum Call<'a> {
    Open { sheet: u8, state: &'a [u8] },
    Add { sheet: u8, step: &'a [u8] },
    Swap { sheet: u8, place: u8 },
    Withdraw { sheet: u8 },
    Join { sheet: u8, other: u8 },
}

// What a call that is not refused is answered: that the sheet is open, the end of its run, that its steps were exchanged,
// or its new length and how many steps were shared.
#[derive(Clone, Copy)]
pub enum Answer {
    Opened,
    Ends(Held<256>),
    Swapped,
    Joined { len: u8, shared: u8 },
}
