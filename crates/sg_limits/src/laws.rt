//! The law of the limits of lines.
ghost use Rattle.sg_limits.specs.Laws.{HaveLineLimits};

/// The law of the limits of lines: the limit that is told of a line is the first one that it breaks, and a line of which none is
/// told breaks none by itself and has small numbers. It does nothing; its contract is the law.
pub fn line_limits()
    ensures { HaveLineLimits }
{}
