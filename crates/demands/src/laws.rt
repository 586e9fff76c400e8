// The statements of specs/, each the contract of a function here that has nothing to do.
ghost use Rattle.demands.specs.Forced.{ForcedClosed, ForcedLeast, ContradictionMeans};
ghost use Rattle.demands.specs.Demands.{SettlingExact, RoundsBounded, RefusalBounded, LinksToRoots, OnePart, LevelsRise, NoneShared, PatternSays, GiveBack, FilledSatisfies, OwnFilling, OthersIgnored, NonePossible, AskedIsFilled};
ghost use Rattle.demands.specs.Night.{StackHeld, StackDecides, TakeBackUndoes};
ghost use Rattle.demands.specs.Answers.{AcceptedSettles, FourIsContradiction, RefusalKeeps};
ghost use Rattle.demands.specs.Plans.{ListedCircuit, ImpossiblePlan, FilledPlan, OwnPlan, AskedPlace};
ghost use Rattle.demands.specs.Texts.{ReadsBack, ReadsBackInto};

/// The forced literals of a round.
pub fn forcing()
    ensures closed { ForcedClosed }
    ensures least { ForcedLeast }
    ensures contradiction { ContradictionMeans }
{}

/// What the rounds leave.
pub fn settling()
    ensures exact { SettlingExact }
    ensures rounds { RoundsBounded }
    ensures refusal { RefusalBounded }
    ensures links { LinksToRoots }
    ensures parts { OnePart }
{}

/// The gates taken.
pub fn gates()
    ensures levels { LevelsRise }
    ensures patterns { NoneShared }
    ensures says { PatternSays }
    ensures give_back { GiveBack }
{}

/// Plans: filling in, asking, and that none is possible.
pub fn plans()
    ensures filled { FilledSatisfies }
    ensures own { OwnFilling }
    ensures ignored { OthersIgnored }
    ensures impossible { NonePossible }
    ensures asked { AskedIsFilled }
{}

/// A night at the desk.
pub fn nights()
    ensures held { StackHeld }
    ensures decides { StackDecides }
    ensures undoes { TakeBackUndoes }
{}

/// What an answer means.
pub fn answers()
    ensures accepted { AcceptedSettles }
    ensures four { FourIsContradiction }
    ensures refusal { RefusalKeeps }
{}

/// What the calls give, said of what is lent and what comes back alone.
pub fn calls()
    ensures listed { ListedCircuit }
    ensures impossible { ImpossiblePlan }
    ensures filled { FilledPlan }
    ensures own { OwnPlan }
    ensures asked { AskedPlace }
{}

/// Clause text, there and back.
pub fn texts()
    ensures back { ReadsBack }
    ensures back_into { ReadsBackInto }
{}
