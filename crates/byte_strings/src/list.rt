// A list of at most N items in a fixed place.
use crate::buffer;
use std::alloc::AllocError;
use std::marker::Model;

// A value for the places that hold no item.
// Not `Default`, of which a contract knows that a value is some default, and not which.
pub trait Blank: Copy {
    ghost use Rattle.std.specs.Prelude.{◌≡◌};

    ghost blank: { Self };

    fn blank() -> Self
        ensures { result ≡ blank };
}

// The places behind the items are blank, so a list has one form; a contract sees the items alone.
// A table with its length: no heap is used, and the kit's `ArrayVec`, which has a table too, is no
// `Copy`.
#[derive(Copy)]
pub struct FixedList<T: Blank, const N: usize> {
    len: usize,
    places: [T; N],
}

impl<T: Blank, const N: usize> Model for FixedList<T, N> {
    ghost use Rattle.std.specs.Prelude.{◌≡◌, ◌-◌, ◌≤◌, List, ◌++◌, length, take, drop, replicate};
    ghost use Rattle.byte_strings.specs.Laws.Places.{found_again};

    ghost Value = { List T };

    ghost view = { λ l. take l.len l.places };

    ghost invariant = { λ l.
        (l.len ≤ N)
        × (length l.places ≡ N)
        × (drop l.len l.places ≡ replicate (N - l.len) T.blank) };

    ghost inverse = { λ items.
        record {
          len = length items;
          places = items ++ replicate (N - length items) T.blank;
        } };

    ghost inverse_ok = { λ l h.
        found_again (λ len places. record { len = len; places = places })
        l.len N l.places T.blank h.0 h.1 h.2 };
}

impl<T: Blank, const N: usize> FixedList<T, N> {
    ghost use Rattle.std.specs.Prelude.{◌≡◌, ◌≤◌, [], ◌∷◌, ◌++◌, length, take, if◌then◌else◌, nat_le, IsFalse};
    ghost use Rattle.byte_strings.specs.Fitted.{list_within};

    // No items.
    pub fn empty() -> FixedList<T, N>
        ensures { result ≡ [] }
    {
        FixedList {
            len: 0,
            places: [T::blank(); N],
        }
    }

    // Holds the given items; none where there are more than N.
    // By a name and not by `TryFrom`, which would ask for an error type that no caller reads.
    pub fn of(items: &[T]) -> Option<FixedList<T, N>>
        ensures { result ≡ list_within N items.now }
    {
        if items.len() > N {
            return None;
        }
        Some(FixedList::holding(items))
    }

    // Holds the first items of a table, as many as are asked for.
    pub fn first(table: &[T; N], count: usize) -> FixedList<T, N>
        ensures { result ≡ take count table.now }
    {
        FixedList::holding(&table[..count.min(N)])
    }

    // Holds items that have room.
    fn holding(items: &[T]) -> FixedList<T, N>
        requires { length items.now ≤ N }
        ensures { result ≡ items.now }
    {
        let len = items.len();
        let mut places = [T::blank(); N];
        places[..len].copy_from_slice(items);
        FixedList { len, places }
    }

    // Holds other items in the place of these; false, and these stay, where there are more than N.
    // A `bool` and no error, as where something is inserted into a set: there is no more to tell.
    pub fn put(&mut self, items: &[T]) -> bool
        ensures answer { result ≡ nat_le (length items.now) N }
        ensures items { self.new ≡ (if nat_le (length items.now) N then items.now else self.old) }
        ensures untouched { IsFalse result → self.new ≡ self.old }
    {
        let Some(list) = FixedList::of(items) else {
            return false;
        };
        *self = list;
        true
    }

    // The items, one behind the other.
    pub fn items(&self) -> &[T]
        ensures value { result.now ≡ self.now }
        ensures few { length result.now ≤ N }
    {
        &self.places[..self.len]
    }

    // Puts an item behind the others, where there is room.
    pub fn push(&mut self, item: T)
        ensures { self.new ≡ take N (self.old ++ item ∷ []) }
    {
        if self.len < N {
            self.places[self.len] = item;
            self.len += 1;
        }
    }

    // Puts items behind the others, as many of the first as have room, in one copy.
    pub fn append(&mut self, items: &[T])
        ensures { self.new ≡ take N (self.old ++ items.now) }
    {
        let len = self.len;
        let more = items.len().min(N - len);
        let places = &mut self.places[..];
        places[len..len + more].copy_from_slice(&items[..more]);
        self.len = len + more;
    }
}

// A string of at most N bytes in a fixed place.
pub type Held<const N: usize> = FixedList<u8, N>;

impl<const N: usize> FixedList<u8, N> {
    ghost use Rattle.std.specs.Prelude.{◌≡◌, [], length};
    ghost use Rattle.byte_strings.specs.Buffer.{copy_length, buffer_after_copy};

    // Writes the string over the front of a buffer and answers its length;
    // none, and the buffer as it was, where it is too short.
    pub fn copy_to(&self, out: &mut [u8]) -> Option<usize>
        ensures answer { result ≡ copy_length self.now (length out.old) }
        ensures buffer { out.new ≡ buffer_after_copy self.now out.old }
    {
        buffer::copy(self.items(), out)
    }

    // No bytes any more. Only the places that held one are written: it costs their number, not N.
    pub fn clear(&mut self)
        ensures { self.new ≡ [] }
    {
        self.places[..self.len].fill(0);
        self.len = 0;
    }
}

// Copied as it is: a derived clone asks each item for a clone, and of those a generic item says
// nothing.
impl<T: Blank, const N: usize> Clone for FixedList<T, N> {
    ghost use Rattle.std.specs.Prelude.{◌≡◌, ⊤};

    ghost is_clone = { λ l m. m ≡ l };

    ghost is_infallible = { λ _. ⊤ };

    fn clone(&self) -> Result<FixedList<T, N>, AllocError> {
        Ok(*self)
    }
}

impl Blank for u8 {
    ghost blank = { 0 };

    fn blank() -> u8 {
        0
    }
}

impl<T: Blank, const N: usize> Blank for FixedList<T, N> {
    ghost use Rattle.std.specs.Prelude.{[]};

    ghost blank = { [] };

    fn blank() -> FixedList<T, N> {
        FixedList::empty()
    }
}
