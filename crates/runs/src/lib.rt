// Runs of a step system: a start, steps that follow each other, and the end that they lead to; what becomes of them
// where independent neighbours are exchanged; and the least run that extends two.
// It rests on `byte_strings` and `steps`.
#![tactic(auto)]

ghost use Rattle.runs.specs.Run.{OneEnd, RunsOn, FallsApart, LastStep, BetweenStates};
ghost use Rattle.runs.specs.ExchangeLaws.{KeepRuns, Equivalence, BetweenOthers, SameLength, Preorder, Antisymmetric, Swaps};
ghost use Rattle.runs.specs.JoinLaws.{GoneExchanged, KeptExchanged, CarriedRuns, JoinedRuns, JoinedExtends, JoinedLength};
ghost use Rattle.runs.specs.CarryLaws.{CarriedAlike, Cancels};
ghost use Rattle.runs.specs.Least.{Least, Conflict, ConflictPlace, Opposite, OppositeEnd};
ghost use Rattle.runs.specs.JoinAlgebra.{WithItself, AddsNothing, JoinedAlike, WithThird};

// What runs of every step system have in common.
pub fn runs_are_lawful()
    ensures ends { OneEnd }
    ensures joins { RunsOn }
    ensures splits { FallsApart }
    ensures last { LastStep }
    ensures states { BetweenStates }
{}

// What exchanges of independent neighbours keep, in every step system, and when one list of steps extends another.
pub fn exchanges_keep_runs()
    ensures runs { KeepRuns }
    ensures equivalence { Equivalence }
    ensures others { BetweenOthers }
    ensures length { SameLength }
    ensures extending { Preorder }
    ensures alike { Antisymmetric }
    ensures swaps { Swaps }
{}

// What carrying a step through a run, and joining a run to another, make of them in every step system.
pub fn joins_extend_both()
    ensures gone { GoneExchanged }
    ensures kept { KeptExchanged }
    ensures carried { CarriedRuns }
    ensures runs { JoinedRuns }
    ensures extends { JoinedExtends }
    ensures length { JoinedLength }
{}

// Carrying does not tell exchanged lists apart, and steps in front of exchanged lists cancel.
pub fn exchanges_keep_carries()
    ensures alike { CarriedAlike }
    ensures cancels { Cancels }
{}

// A join is the least list that extends both, clashes only where no run extends both, and can be turned round.
pub fn joins_are_least()
    ensures least { Least }
    ensures conflict { Conflict }
    ensures place { ConflictPlace }
    ensures opposite { Opposite }
    ensures end { OppositeEnd }
{}

// Joining as an operation, up to exchanges.
pub fn joins_are_an_operation()
    ensures itself { WithItself }
    ensures nothing { AddsNothing }
    ensures alike { JoinedAlike }
    ensures third { WithThird }
{}
