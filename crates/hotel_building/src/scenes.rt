//! Worked scenes of a building: what the desk says beside what is so at the doors, line by line.
ghost use Rattle.hotel_building.specs.Scenes.BadDoor as scene_bad_door;
ghost use Rattle.hotel_building.specs.Scenes.LateLog as scene_late_log;
ghost use Rattle.hotel_building.specs.Scenes.{Premises.CopiedCard, Premises.EntersUnread, Premises.ExitWithoutEntry};
ghost use Rattle.hotel_building.specs.Scenes.{Premises.ForgedNote, Premises.LockElsewhere, Premises.RestoredBackup};
ghost use Rattle.hotel_building.specs.Scenes.{Premises.ReplacedWithSomebodyInside, Premises.SetToAnyCode};
ghost use Rattle.hotel_building.specs.Scenes.Recoding as scene_recoding;
ghost use Rattle.hotel_building.specs.Scenes.ReplacedLock as scene_replaced_lock;

/// The scenes come out as they are written, and their buildings can be, that of the bad door but for its faults.
pub fn scenes()
    ensures late_log { scene_late_log.TheScene }
    ensures recoding { scene_recoding.TheScene }
    ensures replaced_lock { scene_replaced_lock.TheScene }
    ensures bad_door { scene_bad_door.TheScene }
{}

/// Without any one of these premises a building that can be comes to one of which not all is so that is promised.
pub fn premises()
    ensures copied_card { CopiedCard }
    ensures exit_without_entry { ExitWithoutEntry }
    ensures set_to_any_code { SetToAnyCode }
    ensures replaced_with_somebody_inside { ReplacedWithSomebodyInside }
    ensures enters_unread { EntersUnread }
    ensures forged_note { ForgedNote }
    ensures lock_elsewhere { LockElsewhere }
    ensures restored_backup { RestoredBackup }
{}
