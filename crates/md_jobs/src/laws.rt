//! Laws of the machines, whatever the directories answer. Each function does nothing: its contract is the law. They state places and the 36
//! hours themselves, so that a machine that is wrong in its definition and in its code alike does not meet them. The last six speak of all
//! calls that a job makes as it hears one reply after another.
ghost use Rattle.std.specs.Prelude.{ℕ, ◌≡◌, ◌<◌, ◌≤◌, ◌+◌, ◌-◌, ◌*◌, ◌∷◌, List, None, length, max, if◌then◌else◌};
ghost use Rattle.std.specs.List.{All};
ghost use Rattle.md_dirs.specs.declared.rows.Row.{Row};
ghost use Rattle.md_jobs.specs.declared.step.DirReply.{DirReply as Reply};
ghost use Rattle.md_jobs.specs.declared.step.Moment.{Moment};
ghost use Rattle.md_jobs.specs.Laws.{IsLast, IsOn, IsDoneOrRefused, IsRead, IsOnRow, IsHeld, KeepsWhole, IsDeliveredByLink, KeepsToTmp, CleansOld};
ghost use Rattle.md_jobs.specs.Made.{Heard, made, effects};
ghost use Rattle.md_jobs.specs.Pieces.{pieces_of};
ghost use Rattle.md_jobs.specs.Machines.Clean.{new_cleaning, old_rows, cleaning_turn};
ghost use Rattle.md_jobs.specs.Machines.Deliver.{new_delivery, delivery_turn};
ghost use Rattle.md_jobs.specs.Machines.Errand.{new_errand, errand_turn, steps_left};
ghost use Rattle.md_jobs.specs.Machines.Purposes.{searches};
ghost use Rattle.md_jobs.specs.Tasks.Cleaning.{Cleaning};
ghost use Rattle.md_jobs.specs.Tasks.Delivery.{Delivery};
ghost use Rattle.md_jobs.specs.Tasks.Errand.{Errand};
ghost use Rattle.md_jobs.specs.declared.purpose.Purpose.{Purpose};

/// A turn that is the effect of an errand is its last one, and answers as its purpose does of some message.
pub fn an_errand_ends_by_its_effect()
    ensures { (job : ℕ) → (e : Errand) → (reply : Reply) → (rows : List Row) → IsLast e.purpose ((errand_turn job e).follows reply rows) }
{}

/// A delivery makes, writes and takes away no path but its own, which it links to its name in new.
pub fn a_delivery_keeps_to_its_path()
    ensures { (job : ℕ) → (d : Delivery) → (at : Moment) → IsOn d.tmp (delivery_turn job d at).asked }
{}

/// What a clean takes for old was not used for 36 hours, in seconds, by the clock of the job.
pub fn old_files_are_unused_for_36_hours()
    ensures { (own : ℕ) → (rows : List Row) → All (λ row. 129600 ≤ own - row.stamp) (old_rows own rows) }
{}

/// An errand has its effect at a call that was done, and any answer without it is a refusal.
pub fn an_errand_succeeds_by_a_call_that_was_done()
    ensures { (job : ℕ) → (e : Errand) → (reply : Reply) → (rows : List Row) → IsDoneOrRefused reply ((errand_turn job e).follows reply rows) }
{}

/// An errand that goes on to act does so on a row of this very reading, in the place that it read, by its unique name, whose name its purpose
/// decides on.
pub fn an_errand_acts_on_what_it_read()
    ensures { (job : ℕ) → (e : Errand) → (reply : Reply) → (rows : List Row) → ((errand_turn job e).follows reply rows).answer ≡ None →
        IsRead e reply rows ((errand_turn job e).follows reply rows).task.stage }
{}

/// An errand that looks lists the place where it looks, and one that acts renames, links or takes away the path of its row.
pub fn an_errand_keeps_to_its_row()
    ensures { (job : ℕ) → (e : Errand) → IsOnRow e (errand_turn job e).asked e.stage }
{}

/// A delivery asks for its link only once all bytes of its body were written by appends that were done.
pub fn a_delivery_links_what_it_wrote()
    ensures { (job : ℕ) → (d : Delivery) → (at : Moment) → (file : List ℕ) → IsHeld d.body file d.stage → (reply : Reply) → (rows : List Row) →
        KeepsWhole d file (delivery_turn job d at).asked reply ((delivery_turn job d at).follows reply rows) }
{}

/// A delivery answers that it is delivered only after its link was done, as it takes its path in tmp away.
pub fn a_delivery_is_delivered_by_its_link()
    ensures { (job : ℕ) → (d : Delivery) → (at : Moment) → (reply : Reply) → (rows : List Row) →
        IsDeliveredByLink d (delivery_turn job d at).asked reply ((delivery_turn job d at).follows reply rows) }
{}

/// Each call leaves an errand fewer to make: at the beginning at most three for each try.
pub fn an_errand_makes_fewer_calls_each_time()
    ensures { (job : ℕ) → (e : Errand) → (reply : Reply) → (rows : List Row) → ((errand_turn job e).follows reply rows).answer ≡ None →
        steps_left (searches e.purpose) ((errand_turn job e).follows reply rows).task.stage < steps_left (searches e.purpose) e.stage }
{}

/// A clean keeps to tmp of its folder, and has no effect on messages.
pub fn a_clean_keeps_to_tmp()
    ensures { (own : ℕ) → (c : Cleaning) → (reply : Reply) → (rows : List Row) →
        KeepsToTmp c (cleaning_turn c own).asked ((cleaning_turn c own).follows reply rows) }
{}

/// An errand takes effect at most once, whatever it hears.
pub fn an_errand_takes_effect_at_most_once()
    ensures { (job : ℕ) → (e : Errand) → (heard : List Heard) → length (effects (made (λ e' at. errand_turn job e') e heard)) ≤ 1 }
{}

/// A delivery takes effect at most once, whatever it hears.
pub fn a_delivery_takes_effect_at_most_once()
    ensures { (job : ℕ) → (d : Delivery) → (heard : List Heard) → length (effects (made (delivery_turn job) d heard)) ≤ 1 }
{}

/// An errand makes at most three calls for each try where it looks in new and in cur, and else two.
pub fn an_errand_makes_few_calls()
    ensures { (job folder : ℕ) → (unique : List ℕ) → (purpose : Purpose) → (tries : ℕ) → (heard : List Heard) →
        length (made (λ e at. errand_turn job e) (new_errand folder unique purpose tries) heard) ≤ (if searches purpose then 3 else 2) * max tries 1 }
{}

/// A delivery makes at most three calls more than its body has pieces.
pub fn a_delivery_makes_few_calls()
    ensures { (job folder : ℕ) → (unique body : List ℕ) → (chunk : ℕ) → 0 < chunk → (heard : List Heard) →
        length (made (delivery_turn job) (new_delivery folder unique body chunk) heard) ≤ pieces_of (length body) chunk + 3 }
{}

/// A clean makes at most one call more than its listing has rows.
pub fn a_clean_makes_few_calls()
    ensures { (folder : ℕ) → (listing : Heard) → (heard : List Heard) →
        length (made (λ c at. cleaning_turn c at.own) (new_cleaning folder) (listing ∷ heard)) ≤ 1 + length listing.rows }
{}

/// A clean takes away only names that its one listing showed to be old, each once, and says how many it took once it has tried them all.
pub fn a_clean_takes_away_what_it_saw_to_be_old()
    ensures { (folder : ℕ) → (listing : Heard) → (heard : List Heard) →
        CleansOld folder listing (made (λ c at. cleaning_turn c at.own) (new_cleaning folder) (listing ∷ heard)) }
{}
