// A run sheet: its standing, its start and its steps.
ghost use Rattle.std.specs.Prelude.{◌≤◌};

use byte_strings::held::Held;

mod calls;
mod join;
mod look;
mod print;
mod release;
mod replay;
mod swap;
mod view;

// A blank sheet has no run; an open one can be changed; a released one can be printed.
#[derive(Clone, Copy, PartialEq, Eq)]
pub enum Standing {
    Blank,
    Open,
    Released,
}

// What changes with most calls: the standing, and how many rows hold steps.
#[derive(Clone, Copy)]
pub struct Head {
    standing: Standing,
    len: usize,
    ghost few: { len ≤ 32 },
}

// The start, and a row for each step; the rows past the length are left over.
// A table beside a length and no list: pages say what each row holds, past the length too, and the head is to be a record
// of its own, which a look back can shorten.
#[derive(Clone, Copy)]
pub struct Sheet {
    head: Head,
    start: Held<256>,
    rows: [Held<64>; 32],
}
