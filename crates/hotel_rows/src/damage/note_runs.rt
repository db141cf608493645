//! The counts of each room's notes.
ghost use Rattle.std.specs.Prelude.{◌≡◌, ℕ, List, ◌∷◌, ◌==◌, if◌then◌else◌, IfOk, OnOk, Some};
ghost use Rattle.std.specs.List.{list_all};
ghost use Rattle.hotel_model.specs.Rows.{at_number};
ghost use Rattle.hotel_rows.specs.Stored.{number_of};
ghost use Rattle.hotel_rows.specs.NoteRuns.{note_run_of, NoteRunsOf, counted_as_due};

use crate::damage::numbers::number;
use crate::stored::{PlainNote, PlainRoom, Stored};
use keycard_rules::Memory;
use std::alloc::Global;
use std::collections::BTreeMap;

/// Of some counts the first and the last, and whether they count up.
#[derive(Clone, Copy)]
pub(crate) struct NoteRun {
    first: u64,
    last: u64,
    counted: bool,
}

fn run_at(runs: &BTreeMap<u64, NoteRun>, room: u64) -> Option<NoteRun>
    ensures { result ≡ at_number runs.now.entries room }
{
    runs.get(&room).copied()
}

/// The same with a count before them.
fn with_first(run: Option<NoteRun>, n: u64) -> NoteRun
    ensures { (ns : List ℕ) → run ≡ note_run_of ns → Some result ≡ note_run_of (n ∷ ns) }
{
    let Some(run) = run else {
        return NoteRun {
            first: n,
            last: n,
            counted: true,
        };
    };
    NoteRun {
        first: n,
        last: run.last,
        counted: run.counted && n < run.first && run.first - n == 1,
    }
}

fn add_note(runs: &mut BTreeMap<u64, NoteRun>, note: &PlainNote) -> Result<(), Memory>
    ensures { OnOk result ((r : ℕ) (ns : List ℕ) → at_number runs.old.entries (number_of note.now.room) ≡ note_run_of ns
        → at_number runs.new.entries r
        ≡ (if r == number_of note.now.room then note_run_of (number_of note.now.n ∷ ns)
        else at_number runs.old.entries r)) }
{
    let room = number(note.room);
    let count = number(note.n);
    let run = with_first(run_at(runs, room), count);
    let Ok(_) = runs.insert(room, run) else {
        return Err(Memory);
    };
    Ok(())
}

/// The counts of each room's notes.
pub(crate) fn runs_of(alloc: Global, notes: &[PlainNote]) -> Result<BTreeMap<u64, NoteRun>, Memory>
    ensures { IfOk result (λ runs. NoteRunsOf runs.entries notes.now) }
{
    let mut runs = BTreeMap::new(alloc);
    let len = notes.len();
    for k in 0..len {
        add_note(&mut runs, &notes[len - 1 - k])?;
    }
    Ok(runs)
}

fn has_counts(runs: &BTreeMap<u64, NoteRun>, room: &PlainRoom) -> bool
    ensures { result ≡ counted_as_due runs.now.entries room.now }
{
    let notes = number(room.notes);
    let Some(run) = runs.get(&number(room.room)) else {
        return notes == 0;
    };
    run.counted && run.first == 1 && run.last == notes
}

/// Whether the counts of each room's notes are 1 and on, as many as its row says.
pub(crate) fn rooms_have_counts(runs: &BTreeMap<u64, NoteRun>, stored: &Stored) -> bool
    ensures { result ≡ list_all (counted_as_due runs.now.entries) stored.now.room.items }
{
    for i in 0..stored.room.len() {
        if !has_counts(runs, &stored.room[i]) {
            return false;
        }
    }
    true
}
