//! What it means for our jobs that a judge finds nothing. The function does nothing: its contract is the law.
ghost use Rattle.md_findings.specs.Judged.{ClearLogsSuffice};

/// If the judge finds nothing in the steps of other programs against what the calls of our jobs rely on (`deolmutt judge --relies CALL --by
/// ACTOR`, for each call, with each of our jobs as an actor), each job keeps all that it promises beside them, if the names that it makes are
/// ours and no clock is more than 4 hours from that of the directories. Where calls overlap, it speaks of the order that the judge has found.
pub fn clear_logs_suffice()
    ensures { ClearLogsSuffice }
{}
