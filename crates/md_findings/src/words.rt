//! How a log is judged, as words say it.
ghost use Rattle.std.specs.Prelude.{◌≡◌, ◌≢◌, Some, option_map, map, IfOk, IfErr, codes};
ghost use Rattle.std.specs.Result.{result_ok};
ghost use Rattle.clap.specs.Words.{found_of, one_text};
ghost use Rattle.md_command.specs.declared.mistake.Mistake.TheVariants.{Wrong};
ghost use Rattle.md_command.specs.declared.trouble.Trouble.TheVariants.{BadGrade};
ghost use Rattle.md_jobs.specs.declared.call.Call.{Call};
ghost use Rattle.md_beside.specs.Relied.{command_of, relied};
ghost use Rattle.md_findings.specs.Asked.{allowed_named, AreNamed, asks_for, by_rules, form_in, grade_named, HasForms, IsFlag, IsUnnamed, is_among, is_given, is_one_of, least_named, path_in, words_of};

use clap::ArgMatches;
use md_beside::relied_on;
use md_command::{Mistake, Trouble};
use md_judge::{Clause, GRADES, Grade, LAW, OWED};
use std::alloc::Global;

/// How findings are printed.
#[derive(Clone, Copy)]
pub(crate) enum Form {
    /// A line for people.
    People,
    /// `LINE CLAUSE`.
    Lines,
    /// A JSON object a line.
    Json,
    /// How often each clause is broken, and where first.
    Summary,
}

/// How a log is judged.
#[derive(Drop)]
pub struct Judging<'a> {
    /// The path of the log, where it isn't on standard input.
    pub(crate) file: Option<&'a str>,
    pub(crate) form: Form,
    pub(crate) rules: Rules<'a>,
}

/// The rules by which a log is judged.
#[derive(Drop)]
pub(crate) enum Rules<'a> {
    /// The law.
    Law(Strictness),
    /// What each program owes the others.
    Owed(Owing<'a>),
}

/// How strictly the law is judged.
#[derive(Drop)]
pub(crate) struct Strictness {
    /// The clauses that are not judged.
    pub(crate) allowed: Vec<Clause>,
    /// The least grade of the findings that are shown.
    pub(crate) least: Grade,
}

/// What is judged of what programs owe each other.
#[derive(Drop)]
pub(crate) struct Owing<'a> {
    /// The clauses that are asked for.
    pub(crate) clauses: &'static [Clause],
    /// The actors whose steps are left out.
    pub(crate) ours: Vec<&'a str>,
}

impl Rules<'_> {
    /// The clauses by which a log is judged.
    pub(crate) fn clauses(&self) -> &'static [Clause]
        ensures { result.now ≡ by_rules LAW OWED self.now }
    {
        match self {
            Rules::Law(_) => &LAW,
            Rules::Owed(_) => &OWED,
        }
    }

    /// Whether a finding of a clause, of a grade, in a step of an actor, is to be shown.
    pub(crate) fn ask_for(&self, clause: Clause, grade: Grade, actor: &[u8]) -> bool
        ensures { result ≡ asks_for self.now clause grade actor.now }
    {
        match self {
            Rules::Law(strictness) => grade.is_at_least(strictness.least),
            Rules::Owed(owing) => {
                is_among(clause, owing.clauses) && !is_one_of(actor, owing.ours.as_slice())
            }
        }
    }
}

fn is_among(clause: Clause, clauses: &[Clause]) -> bool
    ensures { result ≡ is_among clause clauses.now }
{
    clauses.iter().any(|one| *one == clause)
}

// Whether an actor has one of these names.
fn is_one_of(actor: &[u8], names: &[&str]) -> bool
    ensures { result ≡ is_one_of actor.now names.now }
{
    names.iter().any(|name| name.as_bytes() == actor)
}

/// What words say of judging that the options have read.
pub fn read_judging<'a>(alloc: Global, words: &ArgMatches<'a>) -> Result<Judging<'a>, Mistake<'a>> {
    Ok(Judging {
        file: file(words.get_str("FILE")),
        form: form_of(words),
        rules: read_rules(alloc, words)?,
    })
}

fn read_rules<'a>(alloc: Global, words: &ArgMatches<'a>) -> Result<Rules<'a>, Mistake<'a>> {
    let ours = words.get_strs("by").unwrap_or(&[]);
    let clauses = match words.get_str("relies") {
        Some(call) => read_relied(call)?,
        None if words.get_flag("owed") => &OWED,
        None if !ours.is_empty() => {
            return Err(Mistake::Wrong {
                word: "--by",
                trouble: Trouble::NeedsOwed,
            });
        }
        None => {
            return Ok(Rules::Law(Strictness {
                allowed: read_allowed(alloc, words)?,
                least: read_least(words.get_str("least"))?,
            }));
        }
    };
    Ok(Rules::Owed(Owing {
        clauses,
        ours: Vec::from_slice(alloc, ours)?,
    }))
}

fn read_relied<'a>(call: &'a str) -> Result<&'static [Clause], Mistake<'a>>
    ensures named { IfOk result (λ clauses. (c : Call) → command_of c ≡ call.now → clauses.now ≡ relied c) }
    ensures other { IfErr result (λ _. (c : Call) → command_of c ≢ call.now) }
{
    match relied_on(call) {
        Some(relied) => Ok(relied),
        None => Err(Mistake::Wrong {
            word: call,
            trouble: Trouble::BadCall,
        }),
    }
}

fn read_allowed<'a>(alloc: Global, words: &ArgMatches<'a>) -> Result<Vec<Clause>, Mistake<'a>>
    ensures { IfOk result (λ allowed. AreNamed (words_of (found_of words.now) (codes "allow")) allowed.items) }
{
    clauses_named(alloc, words.get_strs("allow").unwrap_or(&[]))
}

// The clauses of names, in their order.
fn clauses_named<'a>(alloc: Global, names: &[&'a str]) -> Result<Vec<Clause>, Mistake<'a>>
    ensures ok { IfOk result (λ clauses. AreNamed (map (λ name. name.now) names.now) clauses.items) }
    ensures err { IfErr result (λ mistake. IsUnnamed names.now mistake) }
{
    let mut clauses = Vec::new(alloc);
    for name in names {
        match clause_named(name) {
            Some(clause) => {
                if clauses.push(clause).is_err() {
                    return Err(Mistake::NoMemory);
                }
            }
            None => {
                return Err(Mistake::Wrong {
                    word: name,
                    trouble: Trouble::BadClause,
                });
            }
        }
    }
    Ok(clauses)
}

// The grade of a name, or the last where none is named.
fn read_least<'a>(name: Option<&'a str>) -> Result<Grade, Mistake<'a>>
    ensures ok { result_ok result ≡ least_named (option_map (λ n. n.now) name.entry) }
    ensures err { IfErr result (λ mistake. option_map (λ n. Wrong n BadGrade) name.entry ≡ Some mistake) }
{
    let Some(name) = name else {
        return Ok(Grade::Custom);
    };
    match grade_named(name) {
        Some(grade) => Ok(grade),
        None => Err(Mistake::Wrong {
            word: name,
            trouble: Trouble::BadGrade,
        }),
    }
}

#[tactic(auto, unfolding(crate::specs::Asked::grade_named))]
fn grade_named(name: &str) -> Option<Grade>
    ensures { result ≡ grade_named name.now }
{
    GRADES
        .iter()
        .copied()
        .find(|grade| grade.name().as_bytes() == name.as_bytes())
}

// The path of a log. `-` is standard input.
fn file<'a>(word: Option<&'a str>) -> Option<&'a str>
    ensures { option_map (λ p. p.now) result ≡ path_in (option_map (λ w. w.now) word.entry) }
{
    match word {
        Some("-") => None,
        path => path,
    }
}

fn form_of(words: &ArgMatches<'_>) -> Form
    ensures { HasForms (found_of words.now) → result ≡ form_in (found_of words.now) }
{
    if is_given(words, "lines") {
        Form::Lines
    } else if is_given(words, "json") {
        Form::Json
    } else if is_given(words, "summary") {
        Form::Summary
    } else {
        Form::People
    }
}

// Whether a flag was given.
fn is_given(words: &ArgMatches<'_>, flag: &str) -> bool
    ensures { IsFlag (one_text (found_of words.now) flag.now) → result ≡ is_given (one_text (found_of words.now) flag.now) }
{
    words.get_flag(flag)
}

// The clause of a name, unless it is always judged.
fn clause_named(name: &str) -> Option<Clause>
    ensures { result ≡ allowed_named name.now }
{
    match Clause::named(name.as_bytes()) {
        Some(Clause::NotADirectory) => None,
        found => found,
    }
}
