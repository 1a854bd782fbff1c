//! The body of a field, as it is in the message.
ghost use Rattle.std.specs.Prelude.{◌≡◌, IfOk};
ghost use Rattle.std.specs.List.{concat};
ghost use Rattle.md_head.specs.Header.{lines_of};
ghost use Rattle.md_head.specs.Computed.{trimmed_front, trimmed_end};

use crate::line::cut_line;
use bstr::ByteSlice;
use md_name::Bytes;
use std::alloc::{AllocError, Global};

/// The body of a field, folded as it is in the message: all between the field's colon and the end of its last continuation,
/// line ends among it.
#[derive(Clone, Copy, Debug)]
pub struct FieldBody<'a> {
    pub folded: &'a [u8],
}

fn trim_front(text: &[u8]) -> &[u8]
    ensures { result.now ≡ trimmed_front text.now }
{
    text.trim_start_with(|c| c == ' ' || c == '\t')
}

fn trim_end(text: &[u8]) -> &[u8]
    ensures { result.now ≡ trimmed_end text.now }
{
    text.trim_end_with(|c| c == ' ' || c == '\t')
}

// The lines of a text joined without their line ends, from the first byte on that is no white space.
fn joined(alloc: Global, text: &[u8]) -> Result<Vec<u8>, AllocError>
    ensures { IfOk result (λ bytes. bytes.items ≡ trimmed_front (concat (lines_of text.now))) }
{
    let mut bytes = Vec::with_capacity(alloc, text.len())?;
    let mut left = text;
    while let Some((line, rest)) = cut_line(left) {
        let line = if bytes.is_empty() {
            trim_front(line)
        } else {
            line
        };
        bytes.extend_from_slice(line)?;
        left = rest;
    }
    Ok(bytes)
}

impl<'a> FieldBody<'a> {
    ghost use Rattle.md_head.specs.Bodies.{body_value};

    /// The value: the body unfolded, by leaving out its line ends alone (RFC 5322, 2.2.3), and without the spaces and tabs at both ends.
    pub fn value(&self, alloc: Global) -> Result<Bytes, AllocError>
        ensures { IfOk result (λ value. value ≡ body_value self.now) }
    {
        let mut bytes = joined(alloc, self.folded)?;
        let length = trim_end(&bytes).len();
        bytes.truncate(length);
        Ok(Bytes::of(bytes))
    }
}
