//! Laws of scripts and servers, which make no call.
ghost use Rattle.std.specs.Prelude.{◌≡◌};
ghost use Rattle.hotel_program.specs.declared.command_line.parse.TheConstants.{MOST_CONNECTIONS, MOST_PORT};
ghost use Rattle.hotel_program.specs.declared.{connections.TheConstants.PAUSE, files.TheConstants.SEED_BYTES};
ghost use Rattle.hotel_program.specs.declared.{script.TheConstants.SCRIPT_LIMIT, script.lines.TheConstants.LINE_LIMIT};
ghost use Rattle.hotel_program.specs.declared.timed.TheConstants.{FIRST_PATIENCE, PATIENCE, REST_BYTES, SILENCE};
ghost use Rattle.hotel_program.specs.{Connections.ServersFollow, Script.WholeScript.ScriptsHappen};
ghost use Rattle.hotel_program.specs.Shut.{ScriptsNothing, ServesNothing};

use hotel_core::Books;
use rand_core::Rng;
use std::io::Write;

/// Scripts, lines, seeds, ports and servers have the limits that they should have; times are in nanoseconds.
pub fn limits_are()
    ensures script { SCRIPT_LIMIT ≡ 1048576 }
    ensures line { LINE_LIMIT ≡ 1024 }
    ensures seed { SEED_BYTES ≡ 32 }
    ensures port { MOST_PORT ≡ 65535 }
    ensures connections { MOST_CONNECTIONS ≡ 1000000 }
    ensures first { FIRST_PATIENCE ≡ 1000000000 }
    ensures patience { PATIENCE ≡ 10000000000 }
    ensures silence { SILENCE ≡ 1000000000 }
    ensures rest { REST_BYTES ≡ 1000000 }
    ensures pause { PAUSE ≡ 100000000 }
{}

/// Of a script (the part `through` of its lines): from the first state on that was not clean, each line that asks
/// something is answered by a text that says `Memory` or `Store`, where nobody else wrote what the books are kept in.
pub fn shut_script_answers_nothing<B: Books, R: Rng, W: Write>()
    ensures { ScriptsNothing B.Kept B.Books.own R.stream W.contents }
{}

/// The same of a server: from the first state on that was not clean, the books answer nothing of a connection's
/// request, and nothing of it is taken.
pub fn shut_server_answers_nothing<B: Books, R: Rng>()
    ensures { ServesNothing B.Kept B.Books.own R.stream }
{}

/// Lines that were answered one after the other, and those before one that was cut short, went over the books with
/// their answers.
pub fn scripts_happen<B: Books, R: Rng, W: Write>()
    ensures { ScriptsHappen B.Kept B.Books.own R.stream W.contents }
{}

/// So connections that were served one after the other.
pub fn servers_follow<B: Books, R: Rng>()
    ensures { ServersFollow B.Kept B.Books.own R.stream }
{}
