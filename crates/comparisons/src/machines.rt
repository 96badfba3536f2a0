// The rules, of any machines.
ghost use Rattle.std.specs.Prelude.{Bool};
ghost use Rattle.comparisons.specs.Machine.{Machine};
ghost use Rattle.comparisons.specs.Rules.{ToldRules};

// The four rules hold of any two machines with these states, inputs and outputs, and of any start states that a test tells.
// It does nothing: what it ensures is the theorem.
#[tactic(auto, using(crate::proofs::RulesHold::rules))]
pub fn rules_hold<S, W, Y>()
    ensures { (a b : Machine S W Y) (start : S → Bool) → ToldRules start a b }
{}
