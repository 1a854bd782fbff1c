//! The run that the words of a command line name.
ghost use Rattle.std.specs.Prelude.{◌≡◌, ℕ, List, map, MatchOption};
ghost use Rattle.md_runs.specs.Runs.{IsCommand, WordsName, WordsNameNone, IsCounted, IsNumber, operands_of};

/// The most threads of a run.
pub const MOST_THREADS: u64 = 16;

/// The most workers of an index.
pub const MOST_WORKERS: u64 = 64;

/// What a command line asks for.
#[derive(Clone, Copy, Debug, PartialEq, Eq)]
pub enum Run {
    /// `play`: the script that the source gives is played.
    Play,
    /// `threads N`: its jobs are run by 1 to 16 threads.
    Threads(u64),
    /// `index N`: its messages are indexed by 1 to 64 workers.
    Index(u64),
}

/// The run that words name: a subcommand, and for `threads` and `index` a number in its range, in decimal digits, with or without a plus
/// sign. A `--` may come right after the subcommand. All other words name none.
pub fn run_named(words: &[&str]) -> Option<Run>
    ensures { MatchOption result (WordsNameNone (map (λ word. word.now) words.now)) (WordsName (map (λ word. word.now) words.now)) }
{
    if let Some([]) = operands(words, "play") {
        return Some(Run::Play);
    }
    if let Some(count) = counted(words, "threads", MOST_THREADS) {
        return Some(Run::Threads(count));
    }
    if let Some(count) = counted(words, "index", MOST_WORKERS) {
        return Some(Run::Index(count));
    }
    None
}

/// The number that a subcommand of this name has as its one operand.
fn counted(words: &[&str], name: &str, most: u64) -> Option<u64>
    ensures { MatchOption result
        ((n : ℕ) → ¬ IsCounted (map (λ word. word.now) words.now) name.now n most)
        (λ n. IsCounted (map (λ word. word.now) words.now) name.now n most) }
{
    match operands(words, name) {
        Some([word]) => number(word, most),
        _ => None,
    }
}

/// The operands of a subcommand of this name.
fn operands<'a, 'b>(words: &'b [&'a str], name: &str) -> Option<&'b [&'a str]>
    ensures { MatchOption result
        ((operands : List (List ℕ)) → ¬ IsCommand (map (λ word. word.now) words.now) name.now operands)
        (λ operands. IsCommand (map (λ word. word.now) words.now) name.now (map (λ word. word.now) operands.now)) }
{
    let [first, others @ ..] = words else {
        return None;
    };
    if *first != name {
        return None;
    }
    Some(without_dashes(others))
}

/// The words but for a `--` in front of them.
fn without_dashes<'a, 'b>(words: &'b [&'a str]) -> &'b [&'a str]
    ensures { map (λ word. word.now) result.now ≡ operands_of (map (λ word. word.now) words.now) }
{
    match words {
        [first, others @ ..] if *first == "--" => others,
        _ => words,
    }
}

/// A number from 1 to the most.
fn number(word: &str, most: u64) -> Option<u64>
    ensures { MatchOption result ((n : ℕ) → ¬ IsNumber word.now n most) (λ n. IsNumber word.now n most) }
{
    match word.parse::<u64>() {
        Ok(count) if count >= 1 && count <= most => Some(count),
        _ => None,
    }
}
