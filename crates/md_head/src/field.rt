//! One field: its name and its body.
ghost use Rattle.std.specs.Prelude.{◌≡◌, ◌≤◌, length, option_map};
ghost use Rattle.std.specs.List.{prefix_len};
ghost use Rattle.md_head.specs.Header.{is_blank, is_name_byte};
ghost use Rattle.md_head.specs.Computed.{field_of};

use crate::line::is_blank;

const COLON: u8 = b':';

fn name_len(text: &[u8]) -> usize
    ensures len { result ≡ prefix_len is_name_byte text.now }
    ensures within { result ≤ length text.now }
{
    text.iter()
        .take_while(|b| b.is_ascii_graphic() && **b != COLON)
        .count()
}

fn blank_len(text: &[u8]) -> usize
    ensures len { result ≡ prefix_len is_blank text.now }
    ensures within { result ≤ length text.now }
{
    text.iter().take_while(|b| is_blank(**b)).count()
}

/// The name of a field, and what comes after its colon. None where there is no name, or neither white space nor a colon after it.
#[tactic(auto, unfolding(crate::specs::Computed::field_of))]
pub(crate) fn field(text: &[u8]) -> Option<(&[u8], &[u8])>
    ensures { option_map (λ p. (p.0.now, p.1.now)) result ≡ field_of text.now }
{
    let len = name_len(text);
    let rest = &text[len..];
    let body = &rest[blank_len(rest)..];
    if len == 0 || body.is_empty() || body[0] != COLON {
        return None;
    }
    Some((&text[..len], &body[1..]))
}
