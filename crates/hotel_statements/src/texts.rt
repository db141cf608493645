//! The texts of the statements, each of one table but for those of four walks.

// The tables.

pub(crate) const CREATE_META: &str = "CREATE TABLE meta (\
    id INTEGER PRIMARY KEY CHECK (id = 1), \
    version INTEGER NOT NULL, \
    day INTEGER CHECK (day BETWEEN 0 AND 36524)) STRICT";

pub(crate) const CREATE_KIND: &str = "CREATE TABLE kind (kind TEXT NOT NULL PRIMARY KEY) STRICT";

pub(crate) const CREATE_ROOM: &str = "CREATE TABLE room (\
    room INTEGER PRIMARY KEY CHECK (room BETWEEN 1 AND 9999), \
    kind TEXT NOT NULL REFERENCES kind, \
    lock_place INTEGER NOT NULL, \
    codes INTEGER NOT NULL CHECK (codes >= 1), \
    secured INTEGER NOT NULL CHECK (secured IN (0, 1)), \
    party INTEGER UNIQUE, \
    notes INTEGER NOT NULL, \
    CHECK (0 <= lock_place AND lock_place < codes)) STRICT";

pub(crate) const CREATE_STAY: &str = "CREATE TABLE stay (\
    party INTEGER PRIMARY KEY, \
    guest TEXT NOT NULL, \
    kind TEXT NOT NULL REFERENCES kind, \
    arrive INTEGER NOT NULL, \
    depart INTEGER NOT NULL, \
    state INTEGER NOT NULL CHECK (state BETWEEN 0 AND 3), \
    room INTEGER REFERENCES room, \
    CHECK (arrive < depart)) STRICT";

pub(crate) const CREATE_CODE: &str = "CREATE TABLE code (\
    code INTEGER PRIMARY KEY CHECK (code BETWEEN 0 AND 281474976710655), \
    room INTEGER NOT NULL REFERENCES room, \
    place INTEGER NOT NULL, \
    UNIQUE (room, place)) STRICT";

pub(crate) const CREATE_CARD: &str = "CREATE TABLE card (\
    number INTEGER PRIMARY KEY, \
    party INTEGER NOT NULL REFERENCES stay, \
    old_code INTEGER NOT NULL REFERENCES code, \
    new_code INTEGER NOT NULL REFERENCES code) STRICT";

pub(crate) const CREATE_INSIDE: &str = "CREATE TABLE inside (\
    room INTEGER NOT NULL REFERENCES room, \
    card INTEGER NOT NULL REFERENCES card, \
    PRIMARY KEY (room, card)) STRICT";

pub(crate) const CREATE_NOTE: &str = "CREATE TABLE note (\
    room INTEGER NOT NULL REFERENCES room, \
    n INTEGER NOT NULL, \
    act INTEGER NOT NULL CHECK (act BETWEEN 0 AND 2), \
    card INTEGER, \
    first_code INTEGER NOT NULL, \
    second_code INTEGER NOT NULL, \
    day INTEGER NOT NULL, \
    second INTEGER NOT NULL, \
    PRIMARY KEY (room, n)) STRICT";

pub(crate) const CREATE_FIT: &str = "CREATE TABLE fit (\
    room INTEGER NOT NULL REFERENCES room, \
    fit INTEGER NOT NULL, \
    place INTEGER NOT NULL, \
    before INTEGER NOT NULL, \
    PRIMARY KEY (room, fit), \
    UNIQUE (room, place)) STRICT";

// The indexes: by the first two the rows that refer to a changed one are looked for, by the third arrivals and
// bookings. By the second the cards of a party are listed.

pub(crate) const CREATE_STAY_ROOM: &str = "CREATE INDEX stay_room ON stay (room)";

pub(crate) const CREATE_CARD_PARTY: &str = "CREATE INDEX card_party ON card (party)";

pub(crate) const CREATE_STAY_ARRIVE: &str = "CREATE INDEX stay_arrive ON stay (state, arrive)";

// One row by its key.

pub(crate) const SELECT_DAY: &str = "SELECT day FROM meta WHERE id = ?1";

pub(crate) const SELECT_KIND: &str = "SELECT kind FROM kind WHERE kind = ?1";

pub(crate) const SELECT_ROOM: &str =
    "SELECT room, kind, lock_place, codes, secured, party, notes FROM room WHERE room = ?1";

pub(crate) const SELECT_STAY: &str =
    "SELECT party, guest, kind, arrive, depart, state, room FROM stay WHERE party = ?1";

pub(crate) const SELECT_CODE: &str = "SELECT code, room, place FROM code WHERE code = ?1";

pub(crate) const SELECT_CODE_AT: &str =
    "SELECT code FROM code WHERE room = ?1 AND place = ?2 ORDER BY code";

pub(crate) const SELECT_CARD: &str =
    "SELECT number, party, old_code, new_code FROM card WHERE number = ?1";

pub(crate) const SELECT_INSIDE: &str = "SELECT card FROM inside WHERE room = ?1 AND card = ?2";

pub(crate) const SELECT_ANY_INSIDE: &str = "SELECT card FROM inside WHERE room = ?1";

pub(crate) const SELECT_NOTE: &str =
    "SELECT room, n, act, card, first_code, second_code, day, second FROM note WHERE room = ?1 AND n = ?2";

pub(crate) const SELECT_FIT: &str =
    "SELECT room, fit, place, before FROM fit WHERE room = ?1 AND fit = ?2";

pub(crate) const SELECT_LAST_PARTY: &str = "SELECT party FROM stay ORDER BY party DESC";

pub(crate) const SELECT_LAST_CARD: &str = "SELECT number FROM card ORDER BY number DESC";

// Some rows in order.

pub(crate) const SELECT_STAYS_OF_KIND: &str =
    "SELECT party, guest, kind, arrive, depart, state, room FROM stay WHERE kind = ?1 ORDER BY party";

pub(crate) const SELECT_CARDS_INSIDE: &str =
    "SELECT card FROM inside WHERE room = ?1 ORDER BY card";

pub(crate) const SELECT_FITS: &str =
    "SELECT room, fit, place, before FROM fit WHERE room = ?1 ORDER BY fit";

// Changes.

pub(crate) const INSERT_META: &str = "INSERT INTO meta (id, version, day) VALUES (1, 2, NULL)";

pub(crate) const INSERT_KIND: &str = "INSERT INTO kind (kind) VALUES (?1)";

pub(crate) const INSERT_ROOM: &str =
    "INSERT INTO room (room, kind, lock_place, codes, secured, party, notes) VALUES (?1, ?2, ?3, ?4, ?5, ?6, ?7)";

pub(crate) const INSERT_STAY: &str =
    "INSERT INTO stay (party, guest, kind, arrive, depart, state, room) VALUES (?1, ?2, ?3, ?4, ?5, ?6, ?7)";

pub(crate) const INSERT_CODE: &str = "INSERT INTO code (code, room, place) VALUES (?1, ?2, ?3)";

pub(crate) const INSERT_CARD: &str =
    "INSERT INTO card (number, party, old_code, new_code) VALUES (?1, ?2, ?3, ?4)";

pub(crate) const INSERT_INSIDE: &str = "INSERT INTO inside (room, card) VALUES (?1, ?2)";

pub(crate) const INSERT_NOTE: &str =
    "INSERT INTO note (room, n, act, card, first_code, second_code, day, second) \
    VALUES (?1, ?2, ?3, ?4, ?5, ?6, ?7, ?8)";

pub(crate) const INSERT_FIT: &str =
    "INSERT INTO fit (room, fit, place, before) VALUES (?1, ?2, ?3, ?4)";

pub(crate) const UPDATE_DAY: &str = "UPDATE meta SET day = ?2 WHERE id = ?1";

pub(crate) const UPDATE_VERSION: &str = "UPDATE meta SET version = ?2 WHERE id = ?1";

pub(crate) const UPDATE_ISSUED: &str =
    "UPDATE room SET codes = ?2, secured = 0, party = ?3 WHERE room = ?1";

pub(crate) const UPDATE_PARTY: &str = "UPDATE room SET party = NULL WHERE room = ?1";

pub(crate) const UPDATE_NOTED: &str =
    "UPDATE room SET lock_place = ?2, secured = ?3, notes = ?4 WHERE room = ?1";

pub(crate) const UPDATE_REFITTED: &str =
    "UPDATE room SET lock_place = ?2, codes = ?3, secured = 0 WHERE room = ?1";

pub(crate) const UPDATE_STATE: &str = "UPDATE stay SET state = ?2, room = ?3 WHERE party = ?1";

pub(crate) const DELETE_INSIDE: &str = "DELETE FROM inside WHERE room = ?1 AND card = ?2";

pub(crate) const DELETE_INSIDES: &str = "DELETE FROM inside WHERE room = ?1";

// Walks.

pub(crate) const WALK_ARRIVALS: &str = "SELECT party, guest, kind, arrive, depart, state, room \
    FROM stay \
    WHERE state = 0 AND arrive <= ?1 AND ?1 < depart \
    ORDER BY party";

pub(crate) const WALK_CHAIN: &str = "SELECT place, code FROM code WHERE room = ?1 ORDER BY place";

pub(crate) const WALK_AUDIT: &str =
    "SELECT room, n, act, card, first_code, second_code, day, second FROM note WHERE room = ?1 ORDER BY n";

pub(crate) const WALK_IN_HOUSE: &str =
    "SELECT room.room, room.party, stay.guest, stay.kind, stay.depart, room.secured \
    FROM room \
    JOIN stay ON stay.party = room.party \
    ORDER BY room.room";

pub(crate) const WALK_LEFT_BEHIND: &str =
    "SELECT room.room, held.code, last.code, room.lock_place, room.codes \
    FROM room \
    JOIN code AS held ON held.room = room.room AND held.place = room.lock_place \
    JOIN code AS last ON last.room = room.room AND last.place = room.codes - 1 \
    WHERE room.lock_place + 2 < room.codes \
    ORDER BY room.room";

pub(crate) const WALK_ROOM_STATUS: &str =
    "SELECT room, kind, party, lock_place, codes, secured FROM room ORDER BY room";

pub(crate) const WALK_INSIDE: &str = "SELECT inside.room, inside.card, card.party \
    FROM inside \
    JOIN card ON card.number = inside.card \
    ORDER BY inside.room, inside.card";

pub(crate) const WALK_BOOKINGS: &str = "SELECT party, guest, kind, arrive, depart, state, room \
    FROM stay \
    WHERE state = 0 \
    ORDER BY party";

pub(crate) const WALK_CARDS_GIVEN: &str =
    "SELECT number, party, old_code, new_code FROM card WHERE party = ?1 ORDER BY number";

pub(crate) const WALK_LOCKS: &str =
    "SELECT room.room, fit.fit, room.notes, fit.before, note.day, note.second \
    FROM room \
    JOIN fit ON fit.room = room.room \
    LEFT JOIN fit AS later ON later.room = fit.room AND later.fit > fit.fit \
    LEFT JOIN note ON note.room = room.room AND note.n = room.notes \
    WHERE later.room IS NULL \
    ORDER BY room.room";

// Whole tables.

pub(crate) const READ_META: &str = "SELECT id, version, day FROM meta ORDER BY id";

pub(crate) const READ_KIND: &str = "SELECT kind FROM kind ORDER BY kind";

pub(crate) const READ_ROOM: &str =
    "SELECT room, kind, lock_place, codes, secured, party, notes FROM room ORDER BY room";

pub(crate) const READ_STAY: &str =
    "SELECT party, guest, kind, arrive, depart, state, room FROM stay ORDER BY party";

pub(crate) const READ_CODE: &str = "SELECT code, room, place FROM code ORDER BY code";

pub(crate) const READ_CARD: &str =
    "SELECT number, party, old_code, new_code FROM card ORDER BY number";

pub(crate) const READ_INSIDE: &str = "SELECT rowid, room, card FROM inside ORDER BY room, card";

pub(crate) const READ_NOTE: &str =
    "SELECT room, n, act, card, first_code, second_code, day, second FROM note ORDER BY room, n";

pub(crate) const READ_FIT: &str = "SELECT room, fit, place, before FROM fit ORDER BY room, fit";
