//! Each fault by its name, as somebody's program would tell it: an enum that gains or loses a member isn't matched so.
use hotel_audit::ImportFault;
use hotel_core::WalkFault;
use hotel_http::ServeFault;
use hotel_lists::ListFault;
use hotel_lock::AuditFault;
use hotel_nights::GuestFault;
use hotel_program::{ScriptFault, UsageFault};
use hotel_tables::{OpenFault, TableName};
use keycard_rules::{DrawFault, LookFault, RecodeFault};

/// The name of a fault.
pub(crate) type Name = &'static str;

pub(crate) fn of_look_up(fault: LookFault) -> Name {
    match fault {
        LookFault::Memory => "memory",
        LookFault::Store => "store",
    }
}

pub(crate) fn of_draw(fault: DrawFault) -> Name {
    match fault {
        DrawFault::NoFreshCode => "no fresh code",
        DrawFault::Memory => "memory",
        DrawFault::Store => "store",
    }
}

pub(crate) fn of_recoding(fault: RecodeFault) -> Name {
    match fault {
        RecodeFault::HeldDiffers => "held differs",
        RecodeFault::NotAwaited => "not awaited",
    }
}

pub(crate) fn of_guest(fault: GuestFault) -> Name {
    match fault {
        GuestFault::Unread => "unread",
        GuestFault::Memory => "memory",
    }
}

pub(crate) fn of_walk(fault: WalkFault) -> Name {
    match fault {
        WalkFault::Memory => "memory",
        WalkFault::Store => "store",
        WalkFault::Stopped => "stopped",
    }
}

pub(crate) fn of_list(fault: ListFault) -> Name {
    match fault {
        ListFault::NoRoom => "no room",
        ListFault::Memory => "memory",
        ListFault::Store => "store",
        ListFault::Write => "write",
    }
}

pub(crate) fn of_audit_file(fault: AuditFault) -> Name {
    match fault {
        AuditFault::TooLarge => "too large",
        AuditFault::NoHeader => "no header",
        AuditFault::WrongHeader => "wrong header",
        AuditFault::Memory => "memory",
    }
}

/// The name, how many lines were answered, and whether one of them was Taken.
pub(crate) fn of_import(fault: ImportFault) -> (Name, usize, bool) {
    match fault {
        ImportFault::File(fault) => (of_audit_file(fault), 0, false),
        ImportFault::Memory { answered, taken } => ("memory", answered, taken),
        ImportFault::Store { answered, taken } => ("store", answered, taken),
    }
}

/// The name, and whether the request acted.
pub(crate) fn of_request(fault: ServeFault) -> (Name, bool) {
    match fault {
        ServeFault::Closed => ("closed", false),
        ServeFault::Read => ("read", false),
        ServeFault::Memory => ("memory", false),
        ServeFault::Write { acted } => ("write", acted),
    }
}

/// The name, and how many lines were carried out.
pub(crate) fn of_script(fault: ScriptFault) -> (Name, u32) {
    match fault {
        ScriptFault::Read => ("read", 0),
        ScriptFault::TooLarge => ("too large", 0),
        ScriptFault::Memory => ("memory", 0),
        ScriptFault::Write { done } => ("write", done),
    }
}

pub(crate) fn of_words(fault: &UsageFault) -> Name {
    match fault {
        UsageFault::Shown(_) => "shown",
        UsageFault::Usage(_) => "usage",
        UsageFault::Value(name) => name.text(),
        UsageFault::Memory => "memory",
    }
}

pub(crate) fn of_table(table: TableName) -> Name {
    match table {
        TableName::Meta => "meta",
        TableName::Kind => "kind",
        TableName::Room => "room",
        TableName::Stay => "stay",
        TableName::Code => "code",
        TableName::Card => "card",
        TableName::Inside => "inside",
        TableName::Note => "note",
        TableName::Fit => "fit",
    }
}

pub(crate) fn of_opening(fault: OpenFault) -> Name {
    match fault {
        OpenFault::Memory => "memory",
        OpenFault::Store => "store",
        OpenFault::NotADesk => "not a desk",
        OpenFault::Damaged(table) => of_table(table),
    }
}
