//! The lines of a script.
ghost use Rattle.std.specs.Prelude.{◌≡◌, length};
ghost use Rattle.md_head.specs.Header.{lines_of};

use md_head::cut_line;

/// How many lines a script has, those that are passed over included.
pub(crate) fn count_lines(script: &[u8]) -> u64
    ensures { result ≡ length (lines_of script.now) }
{
    let mut left = script;
    let mut count = 0;
    while let Some((_, others)) = cut_line(left) {
        left = others;
        count += 1;
    }
    count
}
