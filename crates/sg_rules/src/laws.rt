ghost use Rattle.sg_rules.specs.Runnable.{BuiltRuns};
ghost use Rattle.sg_rules.specs.Careful.{StepsAreCareful};

/// Scripts within the limits whose statements are built by now are run now. It does nothing; its contract is the law.
pub fn built_runs()
    ensures { BuiltRuns }
{}

/// The law of careful steps: what the rules of searches and sweeps keep. It does nothing; its contract is the law.
pub fn steps_are_careful()
    ensures { StepsAreCareful }
{}
