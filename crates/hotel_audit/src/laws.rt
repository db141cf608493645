//! Laws of the import of audit files, which make no call.
ghost use Rattle.hotel_audit.specs.{FilesCounted.FilesCounted, FilesCounted.NotesCounted, FilesCounted.RunsTake};
ghost use Rattle.hotel_audit.specs.{ListSent.ListIsSeen, ListSent.ListReadsBack};
ghost use Rattle.hotel_audit.specs.{SentAgain.SeenAgain, SentAtOnce.SentAtOnce, SentAtOnce.StoppedAndSent};
ghost use Rattle.hotel_audit.specs.{Import.ImportsLead, Shut.ImportsNothing};

use hotel_core::Books;

/// A file whose lines were all Taken or Seen changes nothing when it comes again, at any later time, also after a refit
/// of a room: each line is seen.
pub fn seen_again()
    ensures { SeenAgain }
{}

/// A file in which no room's pairs of fit and count fall from one line to a later one changes nothing when it, or any
/// prefix of it, comes again with no command between. It is enough that no lock's counts fall.
pub fn sent_again_at_once()
    ensures { SentAtOnce }
{}

/// Such a file comes to the same history, and so to the same tables, whether it is sent once or, after a prefix of its
/// lines, whole again with no command between.
pub fn stopped_and_sent_again()
    ensures { StoppedAndSent }
{}

/// However the notes come, in files that are cut, overlap or repeat, those of each fit of a room are taken with the
/// counts 1, 2 and so on, each once.
///
/// The history is then the one before the files and the events of the notes that were answered Taken, in order, so that
/// the tables are those of these events. The last two clauses speak of other commands between the files too.
pub fn files_counted()
    ensures of_files { FilesCounted }
    ensures of_histories { NotesCounted }
    ensures of_runs { RunsTake }
{}

/// The list of a room's notes is an audit file of them, unless it is longer than `AUDIT_BYTES`. Sent at the same desk,
/// at any later time, each of its lines is seen, and changes nothing.
pub fn list_comes_back()
    ensures list { ListReadsBack }
    ensures seen { ListIsSeen }
{}

/// Of an import (`imported`): from the first state on that was not clean, each line that was answered is unread, where
/// nobody else wrote what the books are kept in. So none is a note.
pub fn shut_import_answers_nothing<B: Books>()
    ensures { ImportsNothing B.Kept B.Books.own }
{}

/// Of an import (`imported`): its notes are a run of the model, with their replies, and it leaves of the books what its
/// calls leave together: each note was answered, and where it was stopped, the next one failed.
pub fn imports_lead<B: Books>()
    ensures { ImportsLead B.Kept B.Books.own }
{}
