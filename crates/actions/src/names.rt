// Lists of names, as a mask has one.
ghost use Rattle.std.specs.Prelude.{IsTrue};
ghost use Rattle.actions.specs.Names.{all_names};

use crate::action::{is_name, name_of};
use byte_strings::FixedList;

// The most names of a list.
pub const NAME_LIMIT: usize = 8;

// A list of names; one may stand in it more than once.
#[derive(Clone, Copy)]
pub struct Names {
    items: FixedList<u8, NAME_LIMIT>,
    ghost sound: { IsTrue (all_names items) },
}

// Why a list does not take a name.
#[derive(Clone, Copy)]
pub enum NameFault {
    // It has as many as it can hold.
    Full,
    // The byte is no name.
    NoName,
}

impl Names {
    ghost use Rattle.std.specs.Prelude.{◌≡◌, [], OnErr};
    ghost use Rattle.actions.specs.Contents.{names_of};
    ghost use Rattle.actions.specs.Names.{name_fault, name_answer, names_after, hides, HidesListed};

    // No names.
    pub fn none() -> Names
        ensures { names_of result ≡ [] }
    {
        Names {
            items: FixedList::empty(),
        }
    }

    // Takes one name more, behind the others, or refuses it and stays as it is.
    pub fn add(&mut self, name: u8) -> Result<(), NameFault>
        ensures answer { result ≡ name_answer (name_fault (names_of self.old) name) }
        ensures names { names_of self.new ≡
            names_after (name_fault (names_of self.old) name) (names_of self.old) name }
        ensures refused { OnErr result (self.new ≡ self.old) }
    {
        if self.items.items().len() >= NAME_LIMIT {
            return Err(NameFault::Full);
        }
        if !is_name(name) {
            return Err(NameFault::NoName);
        }
        self.items.push(name);
        Ok(())
    }

    // Whether the action is a name of the list, or the co-name of one.
    pub fn hides(&self, action: u8) -> bool
        ensures value { result ≡ hides (names_of self.now) action }
        ensures listed { HidesListed (names_of self.now) action }
    {
        self.items.items().contains(&name_of(action))
    }
}
