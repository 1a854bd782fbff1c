//! The clauses of the law that each call of our jobs relies on.
ghost use Rattle.std.specs.Prelude.{◌≡◌, ◌≢◌, None, IfSome};
ghost use Rattle.md_jobs.specs.declared.call.Call.{Call};
ghost use Rattle.md_beside.specs.Relied.{command_of, relied};

use md_log::Clause;

// To each job: a message has one path, in all folders.
const ERRAND: &[Clause] = &[Clause::TwoNames, Clause::InTwoFolders];

const DELIVER: &[Clause] = &[
    Clause::TwoNames,
    Clause::InTwoFolders,
    Clause::Mixed,
    Clause::NamedByAnother,
    Clause::CleanedEarly,
];

const MOVE: &[Clause] = &[
    Clause::TwoNames,
    Clause::InTwoFolders,
    Clause::MovedBack,
    Clause::UsedTwice,
];

const COPY: &[Clause] = &[Clause::TwoNames, Clause::InTwoFolders, Clause::MovedBack];

const CLEAN: &[Clause] = &[
    Clause::TwoNames,
    Clause::InTwoFolders,
    Clause::MadeAgain,
    Clause::WrittenLate,
];

/// The clauses that a call relies on, by the name of its command: deliver, seen, flag, move, copy, expunge or clean. If no step of another
/// program breaks one of those that the calls at work rely on, and clocks are near, each job keeps all that it promises
/// (`laws::jobs_rely_on_their_clauses`).
pub fn relied_on(command: &str) -> Option<&'static [Clause]>
    ensures named { IfSome result (λ clauses. (c : Call) → command_of c ≡ command.now → clauses.now ≡ relied c) }
    ensures other { result ≡ None → (c : Call) → command_of c ≢ command.now }
{
    match command {
        "deliver" => Some(DELIVER),
        "seen" | "flag" | "expunge" => Some(ERRAND),
        "move" => Some(MOVE),
        "copy" => Some(COPY),
        "clean" => Some(CLEAN),
        _ => None,
    }
}
