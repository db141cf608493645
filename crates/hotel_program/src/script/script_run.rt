//! The laws that a script is a run of its commands, with its lists between them.
ghost use Rattle.hotel_program.specs.Script.ScriptRun.{ScriptsRun, ListsBetween};

/// The commands of a script's lines are a run of the model, the answers are the texts of its replies and the lists'
/// answers, and each list is answered over the history after the commands before it.
pub(crate) fn scripts_run()
    ensures run { ScriptsRun }
    ensures lists { ListsBetween }
{}
