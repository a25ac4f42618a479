// Values of the run files worked out by hand, as one table with one proof: specs/WorkedRuns.antt.
#![tactic(auto)]

ghost use Rattle.workedruns.specs.WorkedRuns.{WorkedRuns};

// Each worked value is what the definitions say.
pub fn worked_runs_hold()
    ensures { WorkedRuns }
{}
