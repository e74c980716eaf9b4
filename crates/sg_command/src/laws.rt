//! The law of commands.
ghost use Rattle.sg_command.specs.Command.{HasOneJob};

/// No words ask for two jobs. It does nothing; its contract is the law.
pub fn one_job()
    ensures { HasOneJob }
{}
