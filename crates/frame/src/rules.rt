// The rules of a setup: its pairs, its names and the number of its definitions or events.
ghost use Rattle.std.specs.Prelude.{◌≡◌, ◌+◌, ◌≤◌, length};
ghost use Rattle.actions.specs.Contents.{pairs_of, names_of};
ghost use Rattle.frame.specs.Rules.{rules_answer, pair_answer, pairs_answer, names_answer, fault_offset};
ghost use Rattle.frame.specs.Systems.{system_view};
ghost use Rattle.frame.specs.Reading.{setup_view, result_view};

use crate::fault::FrameFault;
use crate::parts::Parts;
use crate::setup::Setup;
use actions::names::{NAME_LIMIT, Names};
use actions::pairs::{PAIR_LIMIT, Pair, PairFault, Pairs};

// The setup of these parts, or the place of the first byte that breaks a rule.
pub(crate) fn allowed(parts: Parts<'_>) -> Result<Setup<'_>, FrameFault>
    ensures { result_view setup_view result
        ≡ rules_answer
        parts.entry.pairs.now parts.entry.names.now (system_view parts.entry.system) }
{
    let pairs = read_pairs(parts.pairs)?;
    let names_place = 3 + parts.pairs.len() as u16;
    let names = read_names(names_place, parts.names)?;
    if !parts.system.is_few() {
        return Err(FrameFault::BadSetup(names_place + 1 + parts.names.len() as u16));
    }
    Ok(Setup {
        pairs,
        names,
        system: parts.system,
    })
}

// Reads the pairs, which stand behind their count at place 2.
fn read_pairs(bytes: &[u8]) -> Result<Pairs, FrameFault>
    ensures { result_view pairs_of result ≡ pairs_answer bytes.now }
{
    if bytes.len() > 2 * PAIR_LIMIT {
        return Err(FrameFault::BadSetup(2));
    }
    let mut pairs = Pairs::none();
    let mut place = 3;
    let mut rest = bytes;
    while let [from, to, behind @ ..] = rest {
        let pair = Pair {
            from: *from,
            to: *to,
        };
        pairs = with_pair(pairs, pair, place)?;
        place += 2;
        rest = behind;
    }
    Ok(pairs)
}

// The pairs and one more behind them, whose first byte stands at the place.
fn with_pair(mut pairs: Pairs, pair: Pair, place: u16) -> Result<Pairs, FrameFault>
    requires { place ≤ 1024 }
    ensures { result_view pairs_of result ≡ pair_answer (pairs_of pairs) pair place }
{
    match pairs.add(pair) {
        Ok(()) => Ok(pairs),
        Err(fault) => Err(FrameFault::BadSetup(place + offset(fault))),
    }
}

// How far behind the first byte of a pair the byte stands that breaks a rule.
fn offset(fault: PairFault) -> u16
    ensures { result ≡ fault_offset fault }
{
    match fault {
        PairFault::ToNoName => 1,
        _ => 0,
    }
}

// Reads the names, which stand behind their count at the place.
fn read_names(place: u16, bytes: &[u8]) -> Result<Names, FrameFault>
    requires { place ≤ 1024 }
    ensures { result_view names_of result ≡ names_answer place bytes.now }
{
    if bytes.len() > NAME_LIMIT {
        return Err(FrameFault::BadSetup(place));
    }
    let mut names = Names::none();
    let mut place = place + 1;
    for name in bytes {
        if names.add(*name).is_err() {
            return Err(FrameFault::BadSetup(place));
        }
        place += 1;
    }
    Ok(names)
}
