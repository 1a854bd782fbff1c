//! What findings cost.
ghost use Rattle.std.specs.Prelude.{◌≡◌, nat_le};
ghost use Rattle.md_judge.specs.Grades.{grade_text, rank, grade_by, grade_of_answer};

use md_log::{Call, Clause, Said, Step};
use md_watch::Broken;

/// What a finding costs.
#[derive(Clone, Copy, Debug, PartialEq, Eq)]
pub enum Grade {
    /// Mail or a flag is gone, or is where a kill or a crash can take it.
    Lost,
    /// Somebody saw, or was told, what was not so.
    Misled,
    /// Other programs, or whoever handed the mail over, rely on the contrary.
    Owed,
    /// A convention.
    Custom,
}

/// The grades, the worst first.
pub const GRADES: [Grade; 4] = [Grade::Lost, Grade::Misled, Grade::Owed, Grade::Custom];

impl Grade {
    /// The grade's name.
    pub fn name(self) -> &'static str
        ensures { result.now ≡ grade_text self }
    {
        match self {
            Grade::Lost => "lost",
            Grade::Misled => "misled",
            Grade::Owed => "owed",
            Grade::Custom => "custom",
        }
    }

    /// Whether it is as bad as another grade, or worse.
    pub fn is_at_least(self, least: Grade) -> bool
        ensures { result ≡ nat_le (rank self) (rank least) }
    {
        self as u32 <= least as u32
    }
}

/// What a finding of the clause costs, so far as its step tells.
pub(crate) fn grade_of(clause: Clause, step: &Step, broken: &Broken) -> Grade
    ensures { result ≡ grade_by clause step.now.call broken.now.renamed }
{
    match clause {
        // It says nothing of a program. What the log lacks may be anything, so it is never passed over.
        Clause::NotADirectory => Grade::Lost,
        // The file that had the path had it for a reason. A delivery whose file in tmp is gone fails.
        Clause::Overwritten | Clause::CleanedEarly => Grade::Lost,
        // The file has a new name by another convention.
        Clause::Gone if broken.is_renamed() => Grade::Custom,
        Clause::Gone => Grade::Lost,
        Clause::AnsweredFalsely => grade_of_answer(step),
        // A reader takes a part of the message for the whole, or doesn't see one.
        Clause::SeenBeforeWhole | Clause::Unlisted => Grade::Misled,
        // What was said may be so by the other program's doing. If not, AnsweredFalsely is found too.
        Clause::GaveUp => Grade::Custom,
        // Who delivers, cleans, or goes by unique names, by tmp or by new relies on it, and who hands mail over on what is flushed: a crash of
        // the machine takes the rest.
        _ => Grade::Owed,
    }
}

// The mail or the flag that was said to be there isn't. Who is told of a failure, and it was done all the same, has lost nothing.
fn grade_of_answer(step: &Step) -> Grade
    ensures { result ≡ grade_of_answer step.now.call }
{
    match &step.call {
        Call::Answer {
            said: Said::Delivered | Said::Flags(_) | Said::Moved(_),
            ..
        } => Grade::Lost,
        _ => Grade::Misled,
    }
}
