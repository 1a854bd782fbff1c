//! Lines of a text, and the lines that one field takes.
ghost use Rattle.std.specs.Prelude.{◌≡◌, ◌<◌, ◌↔◌, [], ◌∷◌, length, IsTrue, IfSome, MatchOption, slice_index};
ghost use Rattle.std.specs.Str.Lines.{strip_carriage_return};
ghost use Rattle.std.specs.List.{after_first};
ghost use Rattle.md_head.specs.Header.{is_blank, is_line_feed, header_section, lines_of};
ghost use Rattle.md_head.specs.Scan.{EndsGroup};

use memchr::memchr;

const LF: u8 = b'\n';

const CR: u8 = b'\r';

pub(crate) fn is_blank(byte: u8) -> bool
    ensures { result ≡ is_blank byte }
{
    byte == b' ' || byte == b'\t'
}

// Whether a text begins with white space, as a continuation does.
fn begins_blank(text: &[u8]) -> bool
    ensures { result ≡ is_blank (slice_index text.now 0) }
{
    matches!(text, [first, ..] if is_blank(*first))
}

/// Whether a header section is over: at the end of the text, or at an empty line.
pub(crate) fn ends_section(text: &[u8]) -> bool
    ensures { IsTrue result ↔ (header_section text.now ≡ []) }
{
    matches!(text, [] | [LF, ..] | [CR, LF, ..])
}

/// How many bytes the first line of a text and its continuations take, with their line ends.
pub(crate) fn group_end(text: &[u8]) -> usize
    requires { 0 < length text.now }
    ensures { EndsGroup text.now result }
{
    let mut end = 0;
    while let Some(at) = memchr(LF, &text[end..]) {
        end += at + 1;
        if !begins_blank(&text[end..]) {
            return end;
        }
    }
    text.len()
}

/// The first line of a text without its end, and all that comes after the end; none where nothing is left. A line ends at a line
/// feed, and one carriage return right before that belongs to the end.
pub fn cut_line(text: &[u8]) -> Option<(&[u8], &[u8])>
    ensures lines { MatchOption result (lines_of text.now ≡ []) (λ cut. lines_of text.now ≡ cut.0.now ∷ lines_of cut.1.now) }
    ensures behind { IfSome result (λ cut. cut.1.now ≡ after_first is_line_feed text.now) }
    ensures shorter { IfSome result (λ cut. length cut.1.now < length text.now) }
{
    if text.is_empty() {
        return None;
    }
    match memchr(LF, text) {
        None => Some((text, &[])),
        Some(at) => Some((without_return(&text[..at]), &text[at + 1..])),
    }
}

// The bytes in front of a line feed without the carriage return that belongs to the line's end.
fn without_return(line: &[u8]) -> &[u8]
    ensures { result.now ≡ strip_carriage_return line.now }
{
    line.strip_suffix(&[CR]).unwrap_or(line)
}
