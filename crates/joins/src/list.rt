// A list of at most 32 steps.
use byte_strings::held::Held;
use byte_strings::list::FixedList;

pub type StepList = FixedList<Held<64>, 32>;
