// Plain calls, which open, add or withdraw.
ghost use Rattle.history.specs.Plain.{PlainPromised, PlainTold};

// What is promised of lists of plain calls holds in words of runs and of no exchanges, and what they are answered does not depend on what is independent.
pub fn plain_calls_are_promised()
    ensures promise { PlainPromised }
    ensures told { PlainTold }
{}
