// The marked cases, inputs with what the rules give for them, and a run of the plain machine for each firmware, computed on the
// definitions; see specs/Marked.antt, specs/Run.antt and specs/OlderRun.antt.
#![tactic(auto)]

ghost use Rattle.std.specs.Prelude.{◌≡◌, true};
ghost use Rattle.machine.specs.Machine.{outcomes};
ghost use Rattle.cases.specs.Marked.{marked, all_hold};
ghost use Rattle.cases.specs.Run.{run, beginning, calls_of, told_of};
ghost use Rattle.cases.specs.OlderRun.{older_run, older_beginning};

// That the definitions give what the cases and the two runs say. There is nothing to run.
pub fn cases_hold()
    ensures marked_cases { all_hold marked ≡ true }
    ensures newer_firmware { outcomes beginning (calls_of run) ≡ told_of run }
    ensures older_firmware { outcomes older_beginning (calls_of older_run) ≡ told_of older_run }
{}
