//! Findings as JSON (RFC 8259), one object a line.
ghost use Rattle.std.specs.Prelude.{◌≡◌, IfOk, if◌then◌else◌, string_bytes};
ghost use Rattle.md_command.specs.Escapes.{is_text};
ghost use Rattle.md_findings.specs.Json.{value_of};

use crate::shown::Shown;
use base64::engine::general_purpose::STANDARD;
use serde_json::{Value, json};
use std::alloc::{AllocError, Global};

/// An object with the keys `actor`, `before`, `call`, `clause`, `grade`, `line` and `why`, and a line feed. Words that aren't UTF-8 are in base64
/// (RFC 4648) under the key with `_base64` added to it.
pub(crate) fn push_json(
    alloc: Global,
    out: &mut Vec<u8>,
    shown: &Shown<'_>,
) -> Result<(), AllocError> {
    let object = object_of(alloc, shown)?;
    out.extend_from_slice(&object.to_vec(alloc)?)?;
    out.extend_from_slice(b"\n")
}

fn object_of(alloc: Global, shown: &Shown<'_>) -> Result<Value, AllocError> {
    let actor_key = key_for(shown.actor, "actor", "actor_base64");
    let call_key = key_for(shown.call, "call", "call_base64");
    json!(in alloc; {
        actor_key: text_of(alloc, shown.actor)?,
        "before": shown.before,
        call_key: text_of(alloc, shown.call)?,
        "clause": shown.clause,
        "grade": shown.grade.name(),
        "line": shown.line,
        "why": shown.why
    })
}

fn key_for<'a>(words: &[u8], key: &'a str, base64_key: &'a str) -> &'a str
    ensures { result ≡ (if is_text words.now then key.entry else base64_key.entry) }
{
    match str::from_utf8(words) {
        Ok(_) => key,
        Err(_) => base64_key,
    }
}

/// Words as text, or in base64 where they are none.
fn text_of(alloc: Global, words: &[u8]) -> Result<String, AllocError>
    ensures { IfOk result (λ text. string_bytes text ≡ value_of words.now) }
{
    match str::from_utf8(words) {
        Ok(text) => String::from_str(alloc, text),
        Err(_) => STANDARD.encode(alloc, words),
    }
}
