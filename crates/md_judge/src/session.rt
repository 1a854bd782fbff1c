//! A log whose lines come one by one.
ghost use Rattle.std.specs.Prelude.{ℕ, suc, ◌≡◌, ◌≢◌, ◌+◌, ◌<◌, ◌↔◌, List, ◌++◌, ◌∷◌, [], Some, None, Ok, Err, true, false, is_ok, IsTrue, OnOk, IfOk, IfErr, slice_get};
ghost use Rattle.md_log.specs.declared.clause.Clause.{Clause};
ghost use Rattle.md_log.specs.declared.clause.Clause.TheVariants.{NotADirectory};
ghost use Rattle.md_log.specs.declared.error.LineFault.TheVariants.{NoMemory};
ghost use Rattle.md_log.specs.Folders.{with_folder};
ghost use Rattle.md_law.specs.History.{History, Moment, opening, next};
ghost use Rattle.md_law.specs.Law.{Breaks};
ghost use Rattle.md_watch.specs.Found.{breaks};
ghost use Rattle.md_watch.specs.Watches.{Holds, PutsFile, PutsName, IsPathRefused, IsNameRefused, with_folder as with_more};
ghost use Rattle.md_judge.specs.declared.stretch.Waiting.{Waiting};
ghost use Rattle.md_judge.specs.Clauses.{Has};
ghost use Rattle.md_log.specs.Texts.{clause_index};
ghost use Rattle.md_judge.specs.Logs.{Log, Numbered, log_by, at_line, with_line, with_step, with_text};
ghost use Rattle.md_judge.specs.Verdict.{AreEarlier, AreInOrder, HasNoTicks, IsAmong, IsFinding};
ghost use Rattle.md_judge.specs.Orders.{AreFoundInOrder};
ghost use Rattle.md_judge.specs.Placed.{IsUnplaced, HasLines, HasWaiting, HasPlaced, HasSettled, HasJudged, AreInOrderAtLines, AreBelowAtLine, IsNextStep, TakesAt, AddsFinding, KeepsHead, KeepsBeginning, Judges, IsHead};
ghost use Rattle.md_judge.specs.Taken.{IsWithoutTicks, Agrees, Answers, AnswersAny, HasTaken, HasEnded, with_given, beside_law};

use crate::clauses::Clauses;
use crate::grade::Grade;
use crate::log::Finding;
use crate::order::order;
use crate::remarks::Remarks;
use crate::stretch::{Stretch, Waiting};
use md_dirs::Path;
use md_log::{CLAUSES, Clause, Folders, Line, LineFault, LogFault, Step, name_folder, read_line};
use md_text::is_passed_over;
use md_watch::{Broken, Watch};
use std::alloc::{AllocError, Global};
use std::mem::replace;

const HEAD: &[u8] = b"maildir_log 1";

/// The most lines that a log has: the number of one is kept in four bytes.
const MOST_LINES: u64 = 4_294_967_294;

/// A log that is being read, and what was found so far.
#[derive(Drop)]
pub struct Session {
    alloc: Global,
    folders: Folders,
    has_begun: bool,
    watch: Watch,
    allowed: Clauses,
    findings: Vec<Finding>,
    remarks: Remarks,
    lines: u64,
    stretch: Stretch,
    /// The line of each entry of the watch: of the files and the further names of the beginning, and then of the steps.
    entries: Vec<u32>,
}

impl Session {
    /// A log of which no line was read. It is judged by the law alone.
    pub fn of_law(alloc: Global) -> Self
        ensures taken { HasTaken beside_law [] result }
    {
        let mut session = Session::new(alloc);
        session.allow(Clause::WrittenLate);
        session.allow(Clause::MadeAgain);
        session.allow(Clause::UsedTwice);
        session.allow(Clause::Rewritten);
        session.allow(Clause::NamedByAnother);
        session.allow(Clause::InTwoFolders);
        session
    }

    /// A log of which no line was read. It is judged by the law, and by what is owed beside it.
    pub fn new(alloc: Global) -> Self
        ensures taken { HasTaken [] [] result }
    {
        Session {
            alloc,
            folders: Folders::new(alloc),
            has_begun: false,
            watch: Watch::new(alloc),
            allowed: Clauses::none(),
            findings: Vec::new(alloc),
            remarks: Remarks::new(alloc),
            lines: 0,
            stretch: Stretch::new(alloc),
            entries: Vec::new(alloc),
        }
    }

    /// This clause is not judged, as by a line `allow`. `NotADirectory` is judged all the same.
    pub fn allow(&mut self, clause: Clause)
        ensures taken { clause ≢ NotADirectory → (given : List Clause) → HasTaken given [] self.old
            → HasTaken (clause ∷ given) [] self.new }
        ensures still { clause ≡ NotADirectory → self.new ≡ self.old }
    {
        if clause != Clause::NotADirectory {
            self.allowed.add(clause);
        }
    }

    /// Takes in the next line, without its end. The first is the head. After a refusal the log is not to be judged.
    pub fn line(&mut self, text: &[u8]) -> Result<(), LogFault>
        ensures taken { (given : List Clause) (texts : List (List ℕ)) → HasTaken given texts self.old
            → OnOk result (HasTaken given (texts ++ text.now ∷ []) self.new) }
        ensures answers { (given : List Clause) (texts : List (List ℕ)) → HasTaken given texts self.old → IsWithoutTicks texts
            → Answers result (log_by (texts ++ text.now ∷ [])) }
        ensures answers_any { (given : List Clause) (texts : List (List ℕ)) → HasTaken given texts self.old
            → AnswersAny result (log_by (texts ++ text.now ∷ [])) }
    {
        let line = next_line(self.lines)?;
        if line > 1 {
            self.take(line, text)?;
        } else if text != HEAD {
            return Err(fault_at(1, LineFault::NoLog));
        }
        self.lines = line;
        Ok(())
    }

    /// The log is over. A log without a line is none.
    pub fn end(&mut self) -> Result<(), LogFault>
        ensures still { (given : List Clause) (texts : List (List ℕ)) (l : Log) → HasTaken given texts self.old → log_by texts ≡ Ok l
            → HasNoTicks l → OnOk result (self.new ≡ self.old) }
        ensures answers { (given : List Clause) (texts : List (List ℕ)) → HasTaken given texts self.old → IsWithoutTicks texts
            → Answers result (log_by texts) }
        ensures ended { (given : List Clause) (texts : List (List ℕ)) → HasTaken given texts self.old
            → OnOk result (HasEnded given texts self.new) }
        ensures answers_any { (given : List Clause) (texts : List (List ℕ)) → HasTaken given texts self.old
            → AnswersAny result (log_by texts) }
    {
        if self.lines == 0 {
            return Err(fault_at(1, LineFault::NoLog));
        }
        self.finish()
    }

    /// Judges what waits, and puts the findings in the order of their lines.
    fn finish(&mut self) -> Result<(), LogFault>
        ensures still { self.old.stretch.steps.items ≡ [] → self.old.stretch.moved ≡ false → (result ≡ Ok tt) × (self.new ≡ self.old) }
        ensures found { (number : ℕ) (l : Log) → HasWaiting number l self.old → OnOk result (AreFoundInOrder l self.new.findings.items) }
        ensures ordered { (number : ℕ) (l : Log) → HasWaiting number l self.old → OnOk result (AreInOrder self.new.findings.items) }
        ensures refused { IfErr result (λ e. IsUnplaced e.fault) }
    {
        self.judge_stretch()?;
        let line = self.lines;
        if self.stretch.is_in_order() {
            return Ok(());
        }
        done_at(line, self.sort())
    }

    /// Puts the findings in the order of their lines. Those of one line stay in the order in which they stand.
    fn sort(&mut self) -> Result<(), AllocError>
        ensures sorted { AreInOrderAtLines self.old.findings.items → OnOk result (AreInOrder self.new.findings.items) }
        ensures same { (number : ℕ) (c : Clause)
            → OnOk result (IsAmong self.new.findings.items number c ↔ IsAmong self.old.findings.items number c) }
    {
        let mut order = Vec::new(self.alloc);
        for (at, finding) in self.findings.iter().enumerate() {
            order.push((finding.line, at))?;
        }
        order.sort_unstable();
        let mut findings = Vec::with_capacity(self.alloc, order.len())?;
        for (_, at) in order.iter() {
            if let Some(finding) = self.findings.get(*at) {
                findings.push(*finding)?;
            }
        }
        self.remarks.sort(&order)?;
        self.findings = findings;
        Ok(())
    }

    /// What was found, in the order of the lines, and at one line in the order of the law.
    pub fn findings(&self) -> &[Finding]
        ensures found { (given : List Clause) (texts : List (List ℕ)) (l : Log) → HasTaken given texts self.now → log_by texts ≡ Ok l
            → HasNoTicks l → (number : ℕ) (c : Clause) → IsAmong result.now number c ↔ IsFinding (with_given given l) number c }
        ensures ordered { (given : List Clause) (texts : List (List ℕ)) (l : Log) → HasTaken given texts self.now → log_by texts ≡ Ok l
            → HasNoTicks l → AreInOrder result.now }
        ensures ended { (given : List Clause) (texts : List (List ℕ)) (l : Log) → HasEnded given texts self.now → log_by texts ≡ Ok l
            → AreFoundInOrder (with_given given l) result.now }
        ensures ended_ordered { (given : List Clause) (texts : List (List ℕ)) (l : Log) → HasEnded given texts self.now → log_by texts ≡ Ok l
            → AreInOrder result.now }
    {
        self.findings.as_slice()
    }

    /// The actor and the call of a finding, by its number from 0, as the log spells them. The names that a `list` line shows are left out.
    pub fn words(&self, finding: usize) -> (&[u8], &[u8]) {
        self.remarks.words(finding)
    }

    /// What a finding costs, by its number from 0. That an actor removed a message as its user wished is known once he says so.
    pub fn grade(&self, finding: usize) -> Grade {
        self.remarks.grade(finding)
    }

    /// Hands out what was found. The session is not to be asked any more.
    pub(crate) fn take_findings(&mut self) -> Vec<Finding>
        ensures { result ≡ self.old.findings }
    {
        replace(&mut self.findings, Vec::new(self.alloc))
    }

    fn take(&mut self, number: u64, text: &[u8]) -> Result<(), LogFault>
        ensures placed { (l l' : Log) → HasPlaced number l self.old → with_text l number text.now ≡ Ok l'
            → OnOk result (HasPlaced (suc number) l' self.new) }
        ensures answers { (l : Log) → HasPlaced number l self.old → HasNoTicks l → Answers result (at_line number (with_text l number text.now)) }
        ensures answers_any { (l : Log) → HasPlaced number l self.old → AnswersAny result (at_line number (with_text l number text.now)) }
    {
        if is_passed_over(text) {
            return Ok(());
        }
        let line = match read_line(self.alloc, &self.folders, self.has_begun, text) {
            Ok(line) => line,
            Err(fault) => return Err(fault_at(number, fault)),
        };
        match line {
            Line::Step(step) => self.take_step(number, step, text),
            head => match self.take_head(number, head) {
                Ok(()) => Ok(()),
                Err(fault) => Err(fault_at(number, fault)),
            },
        }
    }

    /// A line of the beginning, which comes before the first step.
    fn take_head(&mut self, number: u64, line: Line) -> Result<(), LineFault>
        ensures placed { (l l' : Log) → HasPlaced number l self.old → l.steps ≡ [] → IsHead line → with_line l number line ≡ Ok l'
            → OnOk result (HasPlaced (suc number) l' self.new) }
        ensures agrees { (l : Log) → HasPlaced number l self.old → l.steps ≡ [] → Agrees result (with_line l number line) }
    {
        match line {
            Line::Folder { name } => self.put_folder(name.as_slice()),
            Line::Allow { clause } => {
                self.allowed.add(clause);
                Ok(())
            }
            Line::File { path, stamp } => self.put_file(number, &path, stamp),
            Line::Also { path, old } => self.put_name(number, &path, &old),
            Line::Step(_) => Ok(()),
        }
    }

    fn put_folder(&mut self, name: &[u8]) -> Result<(), LineFault>
        ensures puts { (m : Moment) → Holds (opening m) self.old.watch → OnOk result (Holds (opening (with_more m)) self.new.watch) }
        ensures folders { OnOk result (with_folder self.old.folders name.now ≡ Ok self.new.folders) }
        ensures refused { IfErr result (λ fault. fault ≢ NoMemory → with_folder self.old.folders name.now ≡ Err fault) }
        ensures keeps { KeepsBeginning self.old self.new }
    {
        name_folder(&mut self.folders, name)?;
        self.watch.put_folder()?;
        Ok(())
    }

    fn put_file(&mut self, line: u64, path: &Path, stamp: u64) -> Result<(), LineFault>
        ensures puts { (m : Moment) → Holds (opening m) self.old.watch → OnOk result (PutsFile m path.now stamp self.new.watch) }
        ensures refused { (m : Moment) → Holds (opening m) self.old.watch
            → IfErr result (λ fault. fault ≢ NoMemory → IsPathRefused m path.now fault) }
        ensures keeps { KeepsBeginning self.old self.new }
        ensures folders { self.new.folders ≡ self.old.folders }
    {
        self.watch.put_file(path, stamp)?;
        self.entries.push(short(line))?;
        Ok(())
    }

    fn put_name(&mut self, line: u64, path: &Path, old: &Path) -> Result<(), LineFault>
        ensures puts { (m : Moment) → Holds (opening m) self.old.watch → OnOk result (PutsName m path.now old.now self.new.watch) }
        ensures refused { (m : Moment) → Holds (opening m) self.old.watch
            → IfErr result (λ fault. fault ≢ NoMemory → IsNameRefused m path.now old.now fault) }
        ensures keeps { KeepsBeginning self.old self.new }
        ensures folders { self.new.folders ≡ self.old.folders }
    {
        self.watch.put_name(path, old)?;
        self.entries.push(short(line))?;
        Ok(())
    }

    fn take_step(&mut self, number: u64, step: Step, text: &[u8]) -> Result<(), LogFault>
        ensures placed { (l : Log) → HasPlaced number l self.old → OnOk result (HasPlaced (suc number) (with_step l number step) self.new) }
        ensures refused { self.old.stretch.steps.items ≡ [] → IfErr result (λ e. e.fault ≡ NoMemory) }
        ensures unplaced { IfErr result (λ e. IsUnplaced e.fault) }
    {
        self.has_begun = true;
        if step.ticks.is_some() {
            let waits = self.stretch.add(self.alloc, number as usize, step, text);
            return done_at(number, waits);
        }
        self.judge_stretch()?;
        match self.judge_step(number, &step, text) {
            Ok(_) => Ok(()),
            Err(AllocError) => Err(fault_at(number, LineFault::NoMemory)),
        }
    }

    /// Judges the steps that wait, in an order that their ticks and replies allow.
    fn judge_stretch(&mut self) -> Result<(), LogFault>
        ensures idle { self.old.stretch.steps.items ≡ [] → (result ≡ Ok tt) × (self.new ≡ self.old) }
        ensures settled { (number : ℕ) (l : Log) → HasWaiting number l self.old → OnOk result (HasSettled number l self.new) }
        ensures begun { OnOk result (self.new.has_begun ≡ self.old.has_begun) }
        ensures unplaced { IfErr result (λ e. IsUnplaced e.fault) }
    {
        if self.stretch.is_empty() {
            return Ok(());
        }
        let order = match order(self.alloc, &self.watch, self.stretch.steps()) {
            Ok(order) => order,
            Err(stop) => return Err(fault_at(self.stretch.line(stop.step), stop.why.fault())),
        };
        if !self.stretch.allows(&order) {
            return Err(fault_at(self.stretch.line(0), LineFault::NoOrder));
        }
        for (place, at) in order.iter().enumerate() {
            self.judge_waiting(place, *at)?;
        }
        self.stretch.clear();
        Ok(())
    }

    /// Judges a step that waits at a place of its stretch, by their numbers from 0. It is refused where directories don't give its reply.
    fn judge_waiting(&mut self, place: usize, at: usize) -> Result<(), LogFault>
        ensures judged { (number : ℕ) (l m : Log) (order : List ℕ) (i : ℕ) (x y : Numbered) → HasLines number l self.old
            → HasJudged number l order m self.old → IsNextStep l order i x y place at self.old.stretch → y.step.ticks ≢ None
            → OnOk result (HasLines number l self.new × HasJudged number l (order ++ i ∷ []) (with_step m x.number y.step) self.new) }
        ensures had { OnOk result ((w : Waiting) × (slice_get self.old.stretch.steps.items at ≡ Some (Some w))) }
        ensures takes { OnOk result (TakesAt at self.old.stretch self.new.stretch) }
        ensures begun { OnOk result (self.new.has_begun ≡ self.old.has_begun) }
        ensures unplaced { IfErr result (λ e. IsUnplaced e.fault) }
    {
        let moment = self.stretch.line(place);
        let line = self.stretch.line(at);
        self.stretch.place(moment, line);
        let Some(waiting) = self.stretch.take(at) else {
            return Err(fault_at(line, LineFault::NoOrder));
        };
        let judged = {
            let Waiting { step, text } = waiting;
            self.judge_step(line, &step, &text)
        };
        match judged {
            Ok(false) => Ok(()),
            Ok(true) => Err(fault_at(line, LineFault::NoOrder)),
            Err(AllocError) => Err(fault_at(line, LineFault::NoMemory)),
        }
    }

    /// Judges the next step, and says whether directories don't give its reply.
    fn judge_step(&mut self, line: u64, step: &Step, text: &[u8]) -> Result<bool, AllocError>
        ensures judges { (h : History) → Holds h self.old.watch → OnOk result (Judges h line step.now self.old self.new) }
        ensures wrong { (h : History) → Holds h self.old.watch → IfOk result (λ is_wrong. IsTrue is_wrong ↔ Breaks NotADirectory (next h step.now)) }
        ensures keeps { OnOk result (KeepsHead self.old self.new) }
    {
        let broken = self.watch.step(step)?;
        self.entries.push(short(line))?;
        for clause in CLAUSES {
            self.note(line, clause, step, &broken, text)?;
        }
        self.remarks.hear(step)?;
        Ok(broken.breaks(Clause::NotADirectory))
    }

    fn note(
        &mut self,
        line: u64,
        clause: Clause,
        step: &Step,
        broken: &Broken,
        text: &[u8],
    ) -> Result<(), AllocError>
        ensures keeps { OnOk result (KeepsHead self.old self.new) }
        ensures watch { OnOk result (self.new.watch ≡ self.old.watch) }
        ensures found { OnOk result ((c : Clause)
            → AddsFinding c line ((clause ≡ c) × ((breaks broken.now c ≡ true) × (Has self.old.allowed c → ⊥))) self.old self.new) }
        ensures ordered { OnOk result (AreInOrder self.old.findings.items → AreEarlier self.old.findings.items line (clause_index clause)
            → AreInOrder self.new.findings.items × AreEarlier self.new.findings.items line (suc (clause_index clause))) }
        ensures at_lines { OnOk result (AreInOrderAtLines self.old.findings.items
            → AreBelowAtLine self.old.findings.items line (clause_index clause)
            → AreInOrderAtLines self.new.findings.items × AreBelowAtLine self.new.findings.items line (suc (clause_index clause))) }
    {
        if broken.breaks(clause) && !self.allowed.contains(clause) {
            let before = self.before(step, clause);
            self.findings.push(Finding {
                line,
                clause,
                before,
            })?;
            self.remarks.add(clause, step, broken, text)?;
        }
        Ok(())
    }

    /// The earlier line that a finding of the last step goes back to, where there is one.
    fn before(&self, step: &Step, clause: Clause) -> Option<u64> {
        let entry = self.watch.earlier(step, clause)?;
        Some(u64::from(*self.entries.get(entry)?))
    }
}

/// A line, as it is kept: it takes four bytes.
fn short(line: u64) -> u32 {
    u32::try_from(line).unwrap_or(u32::MAX)
}

/// The number of the next line. There is no memory for a line past 4,294,967,294.
fn next_line(line: u64) -> Result<u64, LogFault>
    ensures next { IfOk result (λ next. next ≡ line + 1) }
    ensures fault { IfErr result (λ e. e.fault ≡ NoMemory) }
{
    if line < MOST_LINES {
        return Ok(line + 1);
    }
    Err(fault_at(line.saturating_add(1), LineFault::NoMemory))
}

fn done_at(line: u64, done: Result<(), AllocError>) -> Result<(), LogFault>
    ensures variant { is_ok result ≡ is_ok done }
    ensures fault { IfErr result (λ e. e.fault ≡ NoMemory) }
{
    match done {
        Ok(()) => Ok(()),
        Err(AllocError) => Err(fault_at(line, LineFault::NoMemory)),
    }
}

fn fault_at(line: u64, fault: LineFault) -> LogFault
    ensures { result ≡ record { line = line; fault = fault } }
{
    LogFault { line, fault }
}
