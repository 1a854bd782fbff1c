//! What holds of scripts by their definitions alone. Each law is a function that does nothing: its contract is the law, and a caller
//! that calls it may rely on it.
ghost use Rattle.std.specs.Prelude.{◌≡◌, ℕ, ◌++◌, List, Ok, None, Some, true, false, is_some};
ghost use mathlib.Core.List.{IsPrefix};
ghost use Rattle.md_head.specs.Header.{IsWholeLines};
ghost use Rattle.md_jobs.specs.declared.step.Event.{Event as ScriptEvent};
ghost use Rattle.md_core.specs.Machine.{job_at};
ghost use Rattle.md_core.specs.Runs.{Run, jobs_of, answer_of};
ghost use Rattle.md_core.specs.Stepping.{IsRun};
ghost use Rattle.md_core.specs.Tracing.{HasOneClock};
ghost use Rattle.md_script.specs.Sessions.{ScriptStore, event_refusal, finish_in, transcript};
ghost use Rattle.md_script.specs.OneClock.{KeepsOneClock};
ghost use Rattle.md_text.specs.Escapes.{escape_all, unescaped};

/// Bytes that are written with escapes read back as they were.
pub fn escapes_read_back(bytes: &[u8])
    ensures { unescaped false (escape_all bytes.now) ≡ Some bytes.now }
{}

/// The cleaner's theorem, for scripts whose `step` and `finish` lines give no moment of the job's own: no step of theirs prints `tmpgone`,
/// and the next one doesn't either.
pub fn one_clock_prints_no_tmpgone()
    ensures { (r : Run) → IsRun r → HasOneClock r → (event : ScriptEvent) → event.own ≡ None → event_refusal r event ≡ None
        → KeepsOneClock r event }
{
    md_core::laws::a_run_goes_on();
    md_core::laws::traces_grow_by_what_happens();
    md_core::laws::one_clock_is_not_apart();
    md_core::laws::cleaners_spare_deliveries();
}

/// The store of a script has a run of the theorem, whatever its lines are.
pub fn the_run_of_a_script_is_a_run()
    ensures { (script : List ℕ) → (t : ScriptStore) → (transcript script).session.store ≡ Some t → IsRun t.run }
{
    md_dirs::laws::names_and_files_belong_together();
}

/// A `finish` that is not refused ends with the answer of its job: the steps that it takes at most are enough.
pub fn finish_ends_with_the_answer()
    ensures { (r : Run) → IsRun r → (event : ScriptEvent) → (after : Run × List ℕ) → finish_in r event ≡ Ok after
        → is_some (answer_of (job_at (jobs_of after.0) event.job)) ≡ true }
{
    md_core::laws::a_step_leaves_its_job_there();
}

/// A script that is cut behind a line end prints a beginning of what the whole prints.
pub fn a_script_goes_on()
    ensures { (front more : List ℕ) → IsWholeLines front → IsPrefix (transcript front).text (transcript (front ++ more)).text }
{}
