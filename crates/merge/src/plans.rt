// The two systems, and what is done over each.
// Beside each plan stand its calls as frames: to these model/sheetbench.py answers the states, counts and texts that stdout has.
use crate::plan::Plan;
use crate::trouble::Trouble;
use nets::event::Event;
use nets::net::Net;
use terms::terms::Terms;

// A filler and a packer: the first fills, closes and offers a crate, the second gets ready, and one hands it over to the other.
const EVENTS: [Event; 5] = [
    Event {
        action: 0x01,
        before: 0x01,
        after: 0x02,
    },
    Event {
        action: 0x02,
        before: 0x02,
        after: 0x04,
    },
    Event {
        action: 0x03,
        before: 0x04,
        after: 0x08,
    },
    Event {
        action: 0x43,
        before: 0x10,
        after: 0x20,
    },
    Event {
        action: 0x00,
        before: 0x28,
        after: 0x41,
    },
];

// The net of these events.
pub(crate) fn net() -> Result<Net, Trouble> {
    let mut net = Net::new();
    for event in EVENTS {
        net.add(event)?;
    }
    Ok(net)
}

// The first designer gets ready before filling, the second closes and offers; then the crate is handed over.
// The setup: A002000005 0100000000000000010000000000000002 0200000000000000020000000000000004
// 0300000000000000040000000000000008 4300000000000000100000000000000020 0000000000000000280000000000000041
// The first: B0000000000000000011 B10000 B10003 B10001 B20001. The second: B0010000000000000011 B10100 B10101 B10102.
// Both: B40001 B500 B700 B600 B10004 B500 B700
pub(crate) const NET_PLAN: Plan<'static> = Plan {
    start: &[0, 0, 0, 0, 0, 0, 0, 0x11],
    first: &[&[0], &[3], &[1]],
    swapped: 1,
    second: &[&[0], &[1], &[2]],
    last: &[4],
};

// Terms over one definition, of two prefixes one behind the other.
pub(crate) fn terms() -> Result<Terms, Trouble> {
    let mut terms = Terms::new(1);
    terms.add(&[0x01, 0x04, 0x01, 0x05, 0x00])?;
    Ok(terms)
}

// A choice beside a call: both designers choose the right branch, each by another of its two prefixes.
// The setup: A0010000 01 05 0104010500
// The first: B0000203010300020101000102000500 B1001115111001 B100121004 B20001.
// The second: B0010203010300020101000102000500 B101121004 B1011115121002.
// Both: B40001 B500 B700 B600 B100121005 B500 B700
pub(crate) const TERMS_PLAN: Plan<'static> = Plan {
    start: &[
        0x02, 0x03, 0x01, 0x03, 0x00, 0x02, 0x01, 0x01, 0x00, 0x01, 0x02, 0x00, 0x05, 0x00,
    ],
    first: &[&[0x11, 0x15, 0x11, 0x10, 0x01], &[0x12, 0x10, 0x04]],
    swapped: 1,
    second: &[&[0x12, 0x10, 0x04], &[0x11, 0x15, 0x12, 0x10, 0x02]],
    last: &[0x12, 0x10, 0x05],
};
