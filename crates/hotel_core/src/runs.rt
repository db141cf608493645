//! Commands one after the other, over any books.
ghost use Rattle.std.specs.Prelude.{◌≡◌, Some, IfOk, IfErr, codes};
ghost use Rattle.hotel_core.specs.Books.Stepped.{RunThrough};

use crate::steps::step;
use hotel_books::Books;
use hotel_model::{Command, Reply};
use rand_core::Rng;
use std::alloc::Global;
use std::error::Error;
use std::fmt;

/// Lack of memory for the replies: no command was begun, and so 0 were answered.
#[derive(Clone, Copy, Debug, PartialEq, Eq)]
pub struct RunFault {
    pub answered: usize,
}

impl fmt::Display for RunFault {
    ghost output = { λ _. Some (codes "memory") };

    fn fmt<W: fmt::Write>(&self, f: &mut fmt::Formatter<W>) -> fmt::Result {
        f.write_str("memory")
    }
}

impl Error for RunFault {}

/// Carries out commands in order. The memory for all replies is taken before the first command.
pub fn run<B: Books, R: Rng>(
    alloc: Global,
    books: &mut B,
    source: &mut R,
    commands: &[Command],
) -> Result<Vec<Reply>, RunFault>
    ensures fault { IfErr result (λ fault. (fault.answered ≡ 0)
        × (books.new ≡ books.old) × (source.new ≡ source.old)) }
    ensures through { IfOk result (λ replies. RunThrough B.Kept B.Books.own (books.old, R.stream source.old)
        commands.now replies.items (books.new, R.stream source.new)) }
{
    let Ok(mut replies) = Vec::with_capacity(alloc, commands.len()) else {
        return Err(RunFault { answered: 0 });
    };
    for command in commands {
        let reply = step(books, source, command);
        let Ok(()) = replies.push(reply) else {
            unreachable!()
        };
    }
    Ok(replies)
}
