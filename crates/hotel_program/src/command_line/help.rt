//! What help says of each subcommand and value, and the version.

use hotel_asks::{ValueName, Verb};

/// The program's version, which `--version` prints after the program's name.
pub(crate) const VERSION: &str = "1";

/// What a command or list does, in one line, with an example.
pub(crate) fn about_verb<'a>(verb: Verb) -> &'a str {
    match verb {
        Verb::Begin => "Set the first business day, once: begin 2031-05-01",
        Verb::AddKind => "Add a kind of room: add-kind DBL",
        Verb::AddRoom => "Add a room and print the code for its lock: add-room 101 DBL",
        Verb::Reserve =>
            "Book a room of a kind for some nights: reserve DBL 2031-05-01 2 'Ann Lee'",
        Verb::Cancel => "Cancel a booking: cancel 1",
        Verb::CheckIn => "Check a booked party in and print its card's codes: check-in 1 101",
        Verb::Spare => "Issue one more card for a party in house: spare 1",
        Verb::Reissue => "Issue a card with a fresh code in place of a lost card: reissue 1",
        Verb::Transfer =>
            "Move a party to another room of its kind and print its new card: transfer 1 102",
        Verb::CheckOut => "Check a party out: check-out 1",
        Verb::Refit =>
            "Replace the lock of a room without a party and print the new lock's code: refit 101",
        Verb::NextDay => "Move the business day on by one: next-day",
        Verb::Entered =>
            "Report that a card opened a lock: entered 101 1 1 OLD NEW 2031-05-01T15:00:00",
        Verb::Left => "Report that a card left a room: left 101 2 1 OLD NEW 2031-05-01T16:00:00",
        Verb::Recoded =>
            "Report that staff set a lock to another code: recoded 101 3 FROM TO 2031-05-02T09:00:00",
        Verb::Arrivals =>
            "List the bookings for a night that aren't checked in: arrivals 2031-05-01",
        Verb::InHouse => "List the rooms with a party: in-house",
        Verb::ChainOf => "List a room's codes: chain 101",
        Verb::LeftBehind => "List the rooms whose lock awaits two codes or more: left-behind",
        Verb::AuditOf => "List a room's notes: audit-of 101",
        Verb::BusinessDay => "Print the business day: business-day",
        Verb::RoomStatus =>
            "List all rooms, each with its party and how many codes its lock awaits: room-status",
        Verb::Inside => "List the cards inside rooms: inside",
        Verb::Bookings => "List the bookings that aren't checked in: bookings",
        Verb::Availability =>
            "List the kinds with how many rooms are free for some nights: availability 2031-05-01 2",
        Verb::CardsGiven => "List the cards of a party: cards 1",
        Verb::CardOf => "List a card with its party and its guest: card 1",
        Verb::Locks => "List the rooms' locks, each with its last note: locks",
    }
}

/// What a value of a subcommand is, its form, and its range.
pub(crate) fn about_value<'a>(subcommand: &str, name: ValueName) -> &'a str {
    match name {
        ValueName::Day => "a day, YYYY-MM-DD: 2000-01-01 to 2099-12-31",
        ValueName::Kind => "a kind of room: 1 to 8 capital letters or digits",
        ValueName::Arrive => "the first night, YYYY-MM-DD: 2000-01-01 to 2099-12-31",
        ValueName::Nights => "the number of nights, 1 to 90",
        ValueName::Guest =>
            "the guest's name: 1 to 60 bytes of UTF-8; no control character; no space first or last; \
                after -- if it begins with -",
        ValueName::Room => "a room's number, 1 to 9999",
        ValueName::Lock =>
            "a lock: the room's number, / and the lock's number, 1 to 99, such as 101/2; 101 alone is 101/1",
        ValueName::Party => "a party's number, 1 to 9999999",
        ValueName::Card => "a card's number, 1 to 9999999",
        ValueName::Count if subcommand == "serve" =>
            "the number of connections to serve, 1 to 1000000",
        ValueName::Count => "the number that the lock gave the note, 1 to 9999999",
        ValueName::Old => "the card's old code: 1 to 12 hexadecimal digits",
        ValueName::New => "the card's new code: 1 to 12 hexadecimal digits",
        ValueName::From => "the code that the lock held before: 1 to 12 hexadecimal digits",
        ValueName::To => "the code that the lock holds now: 1 to 12 hexadecimal digits",
        ValueName::Moment =>
            "the time, YYYY-MM-DDTHH:MM:SS: 2000-01-01T00:00:00 to 2099-12-31T23:59:59",
        ValueName::File => "an audit file: a lock's notes as CSV",
        ValueName::Port => "the port on 127.0.0.1, 1 to 65535",
    }
}
