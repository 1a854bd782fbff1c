//! What the monitor finds. The functions do nothing: their contracts are the laws.
ghost use Rattle.md_monitor.specs.Finds.{Finds, Keeps};

/// The monitor goes from step to step by what it keeps, and by that it finds each clause of the law, and each that is owed beside it, just
/// where a step of a history breaks it.
pub fn the_monitor_finds_what_the_law_has()
    ensures finds { Finds }
    ensures keeps { Keeps }
{}
