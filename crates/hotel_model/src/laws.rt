//! Laws of the model, which make no call: what a caller may rest on beside the contracts of the calls.
ghost use Rattle.hotel_model.specs.{Headline.Assured, History.History};
ghost use Rattle.hotel_model.specs.FurtherLaws.{BookingsTakeOne, CodesAreListed, FreeIsKept, ReissuesKeep};
ghost use Rattle.hotel_model.specs.FurtherLaws.{RefusalsHaveNoEvent, RefusalsKeep};
ghost use Rattle.hotel_model.specs.{Laws.RunsAgree, Laws.RunsCompute, Laws.RunsJoin, Laws.RunsReach, Laws.StartsStand};
ghost use Rattle.hotel_model.specs.FurtherLaws.{CardsAreShown, CardsOnlyGrow, InsidersAreListed};
ghost use Rattle.hotel_model.specs.{Run.Reached, Sound.RulesAreTested, Refinement.Lift.AnswersLift};
ghost use Rattle.hotel_model.specs.{Refinement.Lift.ChangesFit, Refinement.ListsLift.ListsLift};

/// The headline, and what is assured beside it, hold of each history that can be reached.
pub fn assured()
    ensures { (h : History) → Reached h → Assured h }
{}

/// What comes of a command on the rows of a history, and the rows of the lists computed on them, are those of the
/// history.
pub fn answers_lift()
    ensures answers { AnswersLift }
    ensures lists { (h : History) → Reached h → ListsLift h }
{}

/// The rows after one more event are those that its change makes, and the change fits.
pub fn changes_fit()
    ensures { ChangesFit }
{}

/// A run after a run is a run; runs in which nothing failed are determined by the commands and the source; a run ends
/// in a history that can be reached.
pub fn runs_join()
    ensures join { RunsJoin }
    ensures agree { RunsAgree }
    ensures reach { RunsReach }
{}

/// A run as it is computed from a source's words is a run, in which nothing failed.
pub fn runs_compute()
    ensures { RunsCompute }
{}

/// The rules of sound rows hold exactly where their test passes.
pub fn rules_are_tested()
    ensures { RulesAreTested }
{}

/// Sound rows stand for a history.
pub fn starts_stand()
    ensures { StartsStand }
{}

/// A refused command and a note that was seen before have no event, and leave the history; any other answer has one.
pub fn refusals_keep()
    ensures event { RefusalsHaveNoEvent }
    ensures history { RefusalsKeep }
{}

/// An accepted reissue leaves who is registered, and the stays.
pub fn reissues_keep()
    ensures { ReissuesKeep }
{}

/// What a kind is free of for some nights is what bookings are accepted: one is refused for its nights exactly where
/// none is free, and after an accepted one one less is.
pub fn free_is_kept()
    ensures kept { FreeIsKept }
    ensures one_less { BookingsTakeOne }
{}

/// The list of all issued codes has each code of each room, at its place, and no other: what fresh means is read off
/// one list.
pub fn codes_are_listed()
    ensures { CodesAreListed }
{}

/// The list of the cards inside has each of them: no card that is inside lacks a row.
pub fn insiders_are_listed()
    ensures { InsidersAreListed }
{}

/// Each card is shown, with the guest of its party: no card lacks its party's stay.
pub fn cards_are_shown()
    ensures { CardsAreShown }
{}

/// No card that a party was given is taken back: with one more event its list is the one before it, and at most one
/// card more.
pub fn cards_only_grow()
    ensures { CardsOnlyGrow }
{}
