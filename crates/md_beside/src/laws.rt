//! Laws of our jobs beside other programs, whatever these are. Each function does nothing: its contract is the law.
ghost use Rattle.md_beside.specs.Jobs.{JobsBeside};
ghost use Rattle.md_beside.specs.OnDisk.{RunsAreJobs};
ghost use Rattle.md_beside.specs.Relied.{JobsRely};
ghost use Rattle.md_beside.specs.Runs.{JobsAreLawful, RunsAreStories};

/// A job of ours keeps its promise beside others of ours, and beside other programs that do what they owe: it takes effect at one moment,
/// as it would alone on the mailbox that the others left, or it has no effect; readers see the bytes of a delivery's body and no part of
/// them; the answer of an errand says what was so; and it does what it is owed, and breaks no clause of the law but those that calls of its
/// kind may break.
pub fn jobs_keep_their_promises()
    ensures { JobsBeside }
{}

/// If no step of another program breaks a clause that the calls of our jobs rely on (`relied_on`), and no clock is more than 4 hours from
/// that of the directories, each job keeps its promise with no further condition: each answer is true, no delivery loses its file in tmp,
/// and no step breaks a clause, but that a delivery flushes nothing, and a Move and a Copy may miss a message that goes from cur to new.
pub fn jobs_rely_on_their_clauses()
    ensures { JobsRely }
{}

/// Each run of a world is a story, in which no other program takes a step.
pub fn every_run_is_a_story()
    ensures { RunsAreStories }
{}

/// No step of a run breaks a clause of the law, but those that its job may break.
pub fn jobs_are_lawful()
    ensures { JobsAreLawful }
{}

/// A run on a disk, as the contracts of `md_system` promise it, is a job of any story that shows its calls, if each reading is one moment:
/// each step is a turn of the job's machine, and the job's answer is that of the run.
pub fn a_run_on_a_disk_is_a_job_of_a_story()
    ensures { RunsAreJobs }
{}
