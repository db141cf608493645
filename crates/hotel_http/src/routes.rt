//! The routes: which paths there are, and what each asks for.

ghost use Rattle.std.specs.Prelude.{◌≡◌, true, IfErr, OnOk};
ghost use Rattle.matchit.specs.declared.error.InsertError.TheVariants.{OutOfMemory};
ghost use Rattle.hotel_http.specs.Routes.{texts, is_free, are_free, with_route, with_routes, target_of, method_of};

use crate::rejection::Method;
use hotel_asks::Verb;
use matchit::{InsertError, Router};
use std::alloc::Global;
use std::marker::Model;

/// What a path asks for.
#[derive(Clone, Copy, Debug, PartialEq, Eq)]
pub(crate) enum Target {
    /// A command or a list.
    Asks(Verb),
    /// The import of an audit file.
    Audit,
}

/// The table of routes. Each is the whole table of the desk, so contracts see nothing of it.
#[derive(Drop)]
pub struct Routes {
    router: Router<Target>,
}

impl Model for Routes {
    ghost use Rattle.std.specs.Prelude.{◌≡◌};
    ghost use Rattle.hotel_http.specs.Routes.{hotel_routes};

    ghost Value = { Unit {0} };

    ghost view = { λ _. tt };

    ghost invariant = { λ r. r.router ≡ hotel_routes };
}

fn add(router: &mut Router<Target>, route: &str, target: Target) -> Result<(), InsertError>
    ensures ok { OnOk result (router.new ≡ with_route route.now target router.old) }
    ensures err { IfErr result (λ fault. is_free route.now router.old ≡ true → fault ≡ OutOfMemory) }
{
    router.insert(route, target)
}

/// Adds routes, one after the other.
fn add_all(router: &mut Router<Target>, routes: &[(&str, Target)]) -> Result<(), InsertError>
    ensures ok { OnOk result (router.new ≡ with_routes (texts routes.now) router.old) }
    ensures err { IfErr result (λ fault. are_free (texts routes.now) router.old ≡ true → fault ≡ OutOfMemory) }
{
    for route in routes {
        add(router, route.0, route.1)?;
    }
    Ok(())
}

/// Makes the table of routes. No two of them conflict, so it fails only by lack of memory. A server makes it once, and
/// serves each request by it.
#[tactic(auto, unfolding(crate::specs::Routes::hotel_routes))]
pub fn make_routes(alloc: Global) -> Result<Routes, InsertError>
    ensures fault { IfErr result (λ fault. fault ≡ OutOfMemory) }
{
    let mut router = Router::new(alloc);
    add_all(
        &mut router,
        &[
            ("/begin", Target::Asks(Verb::Begin)),
            ("/kinds", Target::Asks(Verb::AddKind)),
            ("/rooms", Target::Asks(Verb::AddRoom)),
            ("/reservations", Target::Asks(Verb::Reserve)),
            ("/reservations/{party}/cancel", Target::Asks(Verb::Cancel)),
            (
                "/reservations/{party}/check-in",
                Target::Asks(Verb::CheckIn),
            ),
            ("/reservations/{party}/spare", Target::Asks(Verb::Spare)),
            ("/reservations/{party}/reissue", Target::Asks(Verb::Reissue)),
            (
                "/reservations/{party}/transfer",
                Target::Asks(Verb::Transfer),
            ),
            (
                "/reservations/{party}/check-out",
                Target::Asks(Verb::CheckOut),
            ),
            ("/rooms/{room}/refit", Target::Asks(Verb::Refit)),
            ("/next-day", Target::Asks(Verb::NextDay)),
            ("/audit", Target::Audit),
            ("/arrivals/{day}", Target::Asks(Verb::Arrivals)),
            ("/in-house", Target::Asks(Verb::InHouse)),
            ("/rooms/{room}/chain", Target::Asks(Verb::ChainOf)),
            ("/left-behind", Target::Asks(Verb::LeftBehind)),
            ("/rooms/{room}/audit", Target::Asks(Verb::AuditOf)),
            ("/business-day", Target::Asks(Verb::BusinessDay)),
            ("/room-status", Target::Asks(Verb::RoomStatus)),
            ("/inside", Target::Asks(Verb::Inside)),
            ("/bookings", Target::Asks(Verb::Bookings)),
            (
                "/availability/{day}/{nights}",
                Target::Asks(Verb::Availability),
            ),
            ("/parties/{party}/cards", Target::Asks(Verb::CardsGiven)),
            ("/cards/{card}", Target::Asks(Verb::CardOf)),
            ("/locks", Target::Asks(Verb::Locks)),
        ],
    )?;
    Ok(Routes { router })
}

/// What a path asks for.
#[tactic(auto, unfolding(crate::specs::Routes::target_of))]
pub(crate) fn find_target(routes: &Routes, path: &str) -> Option<Target>
    ensures { result ≡ target_of path.now }
{
    match routes.router.at(path) {
        Ok(found) => Some(*found.value),
        Err(_) => None,
    }
}

/// The method of what a path asks for.
pub(crate) fn method_of(target: Target) -> Method
    ensures { result ≡ method_of target }
{
    match target {
        Target::Asks(verb) if verb.is_list() => Method::Get,
        _ => Method::Post,
    }
}
