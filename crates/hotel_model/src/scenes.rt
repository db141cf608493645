//! The worked scenarios, computed on the model: replies, lists and tables, and the headline after each event.
ghost use Rattle.hotel_model.specs.Scenes.FirstRun as scene_first_run;
ghost use Rattle.hotel_model.specs.Scenes.TwoEntries as scene_two_entries;
ghost use Rattle.hotel_model.specs.Scenes.NextGuest as scene_next_guest;
ghost use Rattle.hotel_model.specs.Scenes.LeftBehindRecoded as scene_left_behind_recoded;
ghost use Rattle.hotel_model.specs.Scenes.AwayAndBack as scene_away_and_back;
ghost use Rattle.hotel_model.specs.Scenes.CodeDrawnTwice as scene_code_drawn_twice;
ghost use Rattle.hotel_model.specs.Scenes.NoFreshCode as scene_no_fresh_code;
ghost use Rattle.hotel_model.specs.Scenes.NoFreshCodeTwice as scene_no_fresh_code_twice;
ghost use Rattle.hotel_model.specs.Scenes.SpareKeepsRoomOpen as scene_spare_keeps_room_open;
ghost use Rattle.hotel_model.specs.Scenes.LostCard as scene_lost_card;
ghost use Rattle.hotel_model.specs.Scenes.LaterLock as scene_later_lock;
ghost use Rattle.hotel_model.specs.Scenes.ReplacedLock as scene_replaced_lock;
ghost use Rattle.hotel_model.specs.Scenes.RefitPassesAwaited as scene_refit_passes_awaited;
ghost use Rattle.hotel_model.specs.Scenes.FitsUsedUp as scene_fits_used_up;
ghost use Rattle.hotel_model.specs.Scenes.AuditTwice as scene_audit_twice;
ghost use Rattle.hotel_model.specs.Scenes.AuditGapConflict as scene_audit_gap_conflict;
ghost use Rattle.hotel_model.specs.Scenes.AuditRoundTrip as scene_audit_round_trip;
ghost use Rattle.hotel_model.specs.Scenes.AuditListComesBackWithFits as scene_audit_list_comes_back_with_fits;
ghost use Rattle.hotel_model.specs.Scenes.LateAudit as scene_late_audit;
ghost use Rattle.hotel_model.specs.Scenes.RecodingRefused as scene_recoding_refused;
ghost use Rattle.hotel_model.specs.Scenes.KindFull as scene_kind_full;
ghost use Rattle.hotel_model.specs.Scenes.EndOfCalendar as scene_end_of_calendar;
ghost use Rattle.hotel_model.specs.Scenes.EndOfCalendarLastDay as scene_end_of_calendar_last_day;
ghost use Rattle.hotel_model.specs.Scenes.DeskDay as scene_desk_day;
ghost use Rattle.hotel_model.specs.Scenes.NoteRefusals as scene_note_refusals;
ghost use Rattle.hotel_model.specs.Scenes.ClerkAsks as scene_clerk_asks;
ghost use Rattle.hotel_model.specs.Scenes.SoundStart as scene_sound_start;
ghost use Rattle.hotel_model.specs.Scenes.TwoRefusals as scene_two_refusals;
ghost use Rattle.hotel_model.specs.Scenes.RefusalsOfFits as scene_refusals_of_fits;
ghost use Rattle.hotel_model.specs.Scenes.BrokenRules as scene_broken_rules;
ghost use Rattle.hotel_model.specs.Scenes.BrokenCards as scene_broken_cards;
ghost use Rattle.hotel_model.specs.Scenes.BrokenFits as scene_broken_fits;
ghost use Rattle.hotel_model.specs.Scenes.RuleNames as rule_names;

/// The worked scenarios hold of the model.
pub fn scenarios()
    ensures first_run { scene_first_run.TheScene }
    ensures two_entries { scene_two_entries.TheScene }
    ensures next_guest { scene_next_guest.TheScene }
    ensures left_behind_recoded { scene_left_behind_recoded.TheScene }
    ensures away_and_back { scene_away_and_back.TheScene }
    ensures code_drawn_twice { scene_code_drawn_twice.TheScene }
    ensures no_fresh_code { scene_no_fresh_code.TheScene }
    ensures no_fresh_code_twice { scene_no_fresh_code_twice.TheScene }
    ensures spare_keeps_room_open { scene_spare_keeps_room_open.TheScene }
    ensures lost_card { scene_lost_card.TheScene }
    ensures later_lock { scene_later_lock.TheScene }
    ensures replaced_lock { scene_replaced_lock.TheScene }
    ensures refit_passes_awaited { scene_refit_passes_awaited.TheScene }
    ensures fits_used_up { scene_fits_used_up.TheScene }
    ensures audit_twice { scene_audit_twice.TheScene }
    ensures audit_gap_conflict { scene_audit_gap_conflict.TheScene }
    ensures audit_round_trip { scene_audit_round_trip.TheScene }
    ensures audit_list_comes_back_with_fits { scene_audit_list_comes_back_with_fits.TheScene }
    ensures late_audit { scene_late_audit.TheScene }
    ensures recoding_refused { scene_recoding_refused.TheScene }
    ensures kind_full { scene_kind_full.TheScene }
    ensures end_of_calendar { scene_end_of_calendar.TheScene }
    ensures end_of_calendar_last_day { scene_end_of_calendar_last_day.TheScene }
    ensures desk_day { scene_desk_day.TheScene }
    ensures note_refusals { scene_note_refusals.TheScene }
    ensures clerk_asks { scene_clerk_asks.TheScene }
    ensures sound_start { scene_sound_start.TheScene }
{}

/// Of two refusals at once the first in the order of the checks is answered.
pub fn two_refusals()
    ensures at_once { scene_two_refusals.TheScene }
    ensures cards_used_up { scene_two_refusals.CardsEnd }
    ensures parties_used_up { scene_two_refusals.PartiesEnd }
    ensures of_fits { scene_refusals_of_fits.TheScene }
{}

/// Each rule of sound rows fails of rows that break it, and just the rules fail that are named there.
pub fn broken_rules()
    ensures of_rooms { scene_broken_rules.TheScene }
    ensures of_cards { scene_broken_cards.TheScene }
    ensures of_fits { scene_broken_fits.TheScene }
    ensures sound { rule_names.AreSound }
{}
