//! Laws of a building, which make no call.
ghost use Rattle.hotel_building.specs.{Building.Building, Building.Reachable, Calls.BooksStayInBuildings};
ghost use Rattle.hotel_building.specs.{Calls.CallsStayButForFaults, Calls.CallsStayInBuildings};
ghost use Rattle.hotel_building.specs.{Calls.MayAllBeAsked, Calls.NotesMayBeAsked, Calls.RunsStay};
ghost use Rattle.hotel_building.specs.{Calls.but_for_faults, Calls.faultless};
ghost use Rattle.hotel_building.specs.{Faults.FaultsHarmTheirDoors, Faults.NoFaultIsOne, Logs.LogsAreDoors};
ghost use Rattle.hotel_building.specs.{Promises.Promised};

/// What is promised of a building holds of each that can be.
pub fn promised()
    ensures { (b : Building) → Reachable b → Promised b }
{}

/// Whatever happens at some doors, what is promised of a room holds at each other one.
pub fn faults_harm_their_doors()
    ensures faults { FaultsHarmTheirDoors }
    ensures none { NoFaultIsOne }
    ensures calls { CallsStayButForFaults }
{}

/// After a call of a desk that stands in a building, the desk stands in one again.
pub fn calls_stay()
    ensures calls { CallsStayInBuildings }
    ensures books { BooksStayInBuildings }
{}

/// So it does after calls one after the other, each of which may be made in its turn, also where doors may fail.
pub fn runs_stay()
    ensures faultless { RunsStay faultless }
    ensures faults { RunsStay but_for_faults }
    ensures asked { MayAllBeAsked }
    ensures notes { NotesMayBeAsked }
{}

/// The doors of a building that opened empty have the locks that keep their logs, and are told these.
pub fn logs_are_doors()
    ensures { LogsAreDoors }
{}
