// Nothing that is promised is empty: specs/Reached.antt has runs that reach every place of the rules.
#![tactic(auto)]

ghost use Rattle.reached.specs.Reached.{Reached};

// Each activity, each instruction, each refusal, a promised put, a lost one, a right frame and a damaged one are reached.
pub fn everything_is_reached()
    ensures { Reached }
{}
