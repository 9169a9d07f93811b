// Pairs of names, as a renaming has them.
ghost use Rattle.std.specs.Prelude.{IsTrue};
ghost use Rattle.actions.specs.Pairs.{sound_pairs};

use crate::action::{is_name, name_of};
use byte_strings::{Blank, FixedList};

// The most pairs of a list.
pub const PAIR_LIMIT: usize = 8;

// A name, and the one that is put in its place.
#[derive(Clone, Copy)]
pub struct Pair {
    // Bytes and no names: a pair is made of any and then checked, so that a list can say what is
    // wrong with it.
    pub from: u8,
    pub to: u8,
}

// Pairs of names, in which none is replaced by two.
#[derive(Clone, Copy)]
pub struct Pairs {
    items: FixedList<Pair, PAIR_LIMIT>,
    ghost sound: { IsTrue (sound_pairs items) },
}

// Why a list does not take a pair.
#[derive(Clone, Copy)]
pub enum PairFault {
    // It has as many as it can hold.
    Full,
    // What is to be replaced is no name.
    FromNoName,
    // What is to be replaced has a pair already.
    FromTwice,
    // What is put in its place is no name.
    ToNoName,
}

// The pair in the places of a list that hold none.
impl Blank for Pair {
    ghost blank = { record { from = 0; to = 0 } };

    fn blank() -> Pair {
        Pair { from: 0, to: 0 }
    }
}

impl Pairs {
    ghost use Rattle.std.specs.Prelude.{◌≡◌, [], OnErr};
    ghost use Rattle.actions.specs.Contents.{pairs_of};
    ghost use Rattle.actions.specs.Pairs.{beside_fault, pair_fault, pair_answer, pairs_after, to_of, replacement, RenamesNames};

    // No pairs.
    pub fn none() -> Pairs
        ensures { pairs_of result ≡ [] }
    {
        Pairs {
            items: FixedList::empty(),
        }
    }

    // Takes one pair more, behind the others, or refuses it and stays as it is.
    pub fn add(&mut self, pair: Pair) -> Result<(), PairFault>
        ensures answer { result ≡ pair_answer (pair_fault (pairs_of self.old) pair) }
        ensures pairs { pairs_of self.new ≡
            pairs_after (pair_fault (pairs_of self.old) pair) (pairs_of self.old) pair }
        ensures refused { OnErr result (self.new ≡ self.old) }
    {
        if self.items.items().len() >= PAIR_LIMIT {
            return Err(PairFault::Full);
        }
        self.check(pair)?;
        self.items.push(pair);
        Ok(())
    }

    // Whether the pair can stand beside these, or what is wrong with it.
    fn check(&self, pair: Pair) -> Result<(), PairFault>
        ensures { result ≡ pair_answer (beside_fault (pairs_of self.now) pair) }
    {
        if !is_name(pair.from) {
            return Err(PairFault::FromNoName);
        }
        if self.to(pair.from).is_some() {
            return Err(PairFault::FromTwice);
        }
        if !is_name(pair.to) {
            return Err(PairFault::ToNoName);
        }
        Ok(())
    }

    // The name that is put in the place of a name, where it has a pair.
    fn to(&self, name: u8) -> Option<u8>
        ensures { result ≡ to_of (pairs_of self.now) name }
    {
        for pair in self.items.items() {
            if pair.from == name {
                return Some(pair.to);
            }
        }
        None
    }

    // The action with its name replaced, where that has a pair; a co-name stays a co-name.
    pub fn replacement(&self, action: u8) -> u8
        ensures value { result ≡ replacement (pairs_of self.now) action }
        ensures names { RenamesNames (pairs_of self.now) }
    {
        let Some(to) = self.to(name_of(action)) else {
            return action;
        };
        if action <= 0x3F { to } else { to + 0x40 }
    }
}
