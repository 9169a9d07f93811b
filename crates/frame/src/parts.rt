// The parts of a setup as its counts lay them out, before they are held to the rules.
ghost use Rattle.std.specs.Prelude.{◌≡◌, ◌+◌, ◌*◌, ◌/◌, ◌≤◌, length};
ghost use Rattle.frame.specs.Systems.{place_of};

use crate::setup::System;

// Pairs of two bytes, names of one, and the system behind them.
#[derive(Clone, Copy)]
pub(crate) struct Parts<'a> {
    pub pairs: &'a [u8],
    pub names: &'a [u8],
    pub system: System<'a>,
    ghost whole: { length pairs.now ≡ 2 * (length pairs.now / 2) },
    ghost within: { length pairs.now + length names.now ≤ 1020 },
    ghost placed: { place_of system ≡ 5 + (length pairs.now + length names.now) },
}
