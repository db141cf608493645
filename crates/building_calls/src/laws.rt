//! Laws of the calls that the program runs, over books that stand in a building.
ghost use Rattle.hotel_building.specs.Calls.{but_for_faults, faultless};
ghost use Rattle.building_calls.specs.{Calls.CallsStay, Stands.DoorsMove, Stands.OpensSo};
ghost use Rattle.building_calls.specs.{Connections.ConnectionsStay, Imports.ImportsStay, Lists.ListsStay};
ghost use Rattle.building_calls.specs.{Requests.RequestsStay, Scripts.ScriptsStay};

use hotel_core::Books;
use hotel_program::Caller;
use rand_core::Rng;
use std::io::Write;

/// Books with sound rows stand in the building that opens with them; and they stand in it still after what happens at
/// its doors between calls.
pub fn buildings_begin<B: Books>()
    ensures opens { OpensSo faultless B.Kept B.rows }
    ensures opens_but { OpensSo but_for_faults B.Kept B.rows }
    ensures doors { DoorsMove faultless B.Kept B.rows }
    ensures doors_but { DoorsMove but_for_faults B.Kept B.rows }
{}

/// A command (`step`), a note (`report`) and commands one after the other (`run`), over books that stand in a building,
/// leave them in one, also where doors may fail.
pub fn calls_stay<B: Books>()
    ensures faultless { CallsStay faultless B.Kept B.Books.own }
    ensures faults { CallsStay but_for_faults B.Kept B.Books.own }
{}

/// A list (`run_list`) leaves them in the same building.
pub fn lists_stay<B: Books>()
    ensures { ListsStay B.Kept B.rows }
{}

/// The import of an audit file (`import`) leaves them in one.
pub fn imports_stay<B: Books>()
    ensures faultless { ImportsStay faultless B.Kept B.Books.own }
    ensures faults { ImportsStay but_for_faults B.Kept B.Books.own }
{}

/// So does a request (`serve_by`, `serve_one`).
pub fn requests_stay<B: Books, R: Rng>()
    ensures faultless { RequestsStay faultless B.Kept B.Books.own R.stream }
    ensures faults { RequestsStay but_for_faults B.Kept B.Books.own R.stream }
{}

/// So does a connection of a server whose request is served. One whose request isn't served leaves the books as they
/// were, and what happens at doors may lie between two connections.
pub fn connections_stay<S, L: Caller<S>, B: Books, R: Rng>()
    ensures faultless { ConnectionsStay faultless L.Caller B.Kept B.Books.own R.stream }
    ensures faults { ConnectionsStay but_for_faults L.Caller B.Kept B.Books.own R.stream }
{}

/// So does a script (`run_script`).
pub fn scripts_stay<B: Books, R: Rng, W: Write>()
    ensures faultless { ScriptsStay faultless B.Kept B.Books.own R.stream W.contents }
    ensures faults { ScriptsStay but_for_faults B.Kept B.Books.own R.stream W.contents }
{}
