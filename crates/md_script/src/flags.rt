//! The flags of a message, as they print.
ghost use Rattle.std.specs.Prelude.{ℕ, suc, ◌≡◌, ◌<◌, ◌++◌, length, position, slice_index, IfSome, IsTrue, OnOk};
ghost use mathlib.Core.List.{IsPrefix};
ghost use Rattle.std.specs.List.{list_all};
ghost use Rattle.md_name.specs.Letters.{is_letter, spelling};
ghost use Rattle.md_name.specs.Names.{is_colon, split_of, flags_of, info_by};
ghost use Rattle.md_script.specs.Texts.{letters_text, flags_by, flags_text};

use md_name::{Flags, Info, split};
use std::alloc::AllocError;

/// What flags print as where there are none.
pub(crate) const NO_FLAGS: u8 = b'-';

/// What other info than flags prints as.
const OTHER_INFO: u8 = b'?';

/// Appends the flags of a message by its name, whose first colon is there, or that its info is other than flags.
#[tactic(auto, using(md_text::proofs::Growing::grown, md_text::proofs::Growing::grown_if, md_text::proofs::Growing::grown_on))]
pub(crate) fn push_flags(
    out: &mut Vec<u8>,
    name: &[u8],
    colon: Option<usize>,
) -> Result<(), AllocError>
    requires colon { colon ≡ position is_colon name.now }
    requires within { IfSome colon (λ at. at < length name.now) }
    ensures text { OnOk result (out.new.items ≡ out.old.items ++ flags_text (flags_by (split_of name.now))) }
    ensures kept { IsPrefix out.old.items out.new.items }
{
    match written_flags(name, colon) {
        Some([]) => Ok(out.push(NO_FLAGS)?),
        Some(letters) => out.extend_from_slice(letters),
        None => push_read_flags(out, name),
    }
}

/// The same of any name, whatever its flags are written like.
#[tactic(auto, using(crate::proofs::Spelled::spelled_none, md_text::proofs::Growing::grown, md_text::proofs::Growing::grown_if, md_text::proofs::Growing::grown_on))]
fn push_read_flags(out: &mut Vec<u8>, name: &[u8]) -> Result<(), AllocError>
    ensures text { OnOk result (out.new.items ≡ out.old.items ++ flags_text (flags_by (split_of name.now))) }
    ensures kept { IsPrefix out.old.items out.new.items }
{
    let Some((_, info)) = split(name) else {
        return Ok(out.push(OTHER_INFO)?);
    };
    match info {
        Info::Bare => out.push(NO_FLAGS)?,
        Info::Two(flags) => push_letters(out, flags)?,
        Info::Opaque => out.push(OTHER_INFO)?,
    }
    Ok(())
}

/// Appends the letters of flags in ASCII order, and a hyphen where there are none.
#[tactic(auto, using(md_text::proofs::Growing::grown, md_text::proofs::Growing::grown_if, md_text::proofs::Growing::grown_on))]
pub(crate) fn push_letters(out: &mut Vec<u8>, flags: Flags) -> Result<(), AllocError>
    ensures text { OnOk result (out.new.items ≡ out.old.items ++ letters_text (spelling flags)) }
    ensures kept { IsPrefix out.old.items out.new.items }
{
    let before = out.len();
    flags.write_onto(out)?;
    if out.len() == before {
        out.push(NO_FLAGS)?;
    }
    Ok(())
}

/// The letters of a message's flags where they stand in its name as they print: in ASCII order, each once. They nearly always do, and
/// are then copied, where other flags are read and spelled.
#[tactic(auto, using(crate::proofs::Written::bare, crate::proofs::Written::after_colon))]
#[inline(always)]
pub(crate) fn written_flags(name: &[u8], colon: Option<usize>) -> Option<&[u8]>
    requires colon { colon ≡ position is_colon name.now }
    requires within { IfSome colon (λ at. at < length name.now) }
    ensures { IfSome result (λ letters. flags_text (flags_by (split_of name.now)) ≡ letters_text letters.now) }
{
    if name.is_empty() || name.starts_with(b".") {
        return None;
    }
    let Some(at) = colon else {
        return Some(&[]);
    };
    if at == 0 {
        return None;
    }
    written_letters(&name[at + 1..])
}

/// The same for the info of a name.
#[tactic(auto, using(crate::proofs::Written::written))]
fn written_letters(text: &[u8]) -> Option<&[u8]>
    ensures { IfSome result (λ letters. flags_text (flags_of (info_by (Some text.now))) ≡ letters_text letters.now) }
{
    let letters = text.strip_prefix(b"2,")?;
    if are_letters(letters) && rise(letters) {
        Some(letters)
    } else {
        None
    }
}

fn are_letters(text: &[u8]) -> bool
    ensures { result ≡ list_all is_letter text.now }
{
    text.iter().all(|byte| byte.is_ascii_alphabetic())
}

/// Whether each byte is above the one before it.
#[tactic(auto, using(crate::proofs::Written::one_more))]
fn rise(text: &[u8]) -> bool
    ensures { IsTrue result → (k : ℕ) → suc k < length text.now → slice_index text.now k < slice_index text.now (suc k) }
{
    for at in 1..text.len() {
        if text[at] <= text[at - 1] {
            return false;
        }
    }
    true
}
