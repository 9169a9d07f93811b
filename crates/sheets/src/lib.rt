// Run sheets whose standing is their type: an open sheet is changed, a released one is printed, and each is given out once.
// To print, one releases; to add again, one reopens. It rests on `bench`, whose sheets these hold.
#![tactic(auto)]

pub mod any_sheet;
pub mod open_sheet;
pub mod refused;
pub mod released_sheet;
