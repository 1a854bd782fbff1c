//! Bytes as a column of a line, or a string of JSON, shows them.
ghost use Rattle.std.specs.Prelude.{◌≡◌, ◌++◌, ◌<◌, length, option_map, IfOk, IfSome, OnOk};
ghost use Rattle.md_command.specs.Escapes.{escape, escaped, hex, digit_of, is_control, has_controls, is_text, json_escape, json_string};
ghost use Rattle.md_command.specs.Escapes.{shown, shown_byte, first_of, ReadsBack};
ghost use Rattle.md_command.specs.Unescaping.{unescaped, first_shown, first_escaped, byte_of, meant_by, value_of};

use std::alloc::{AllocError, Global};

/// Appends bytes as a column shows them: a backslash is `\\`, a tab `\t`, LF `\n` and CR `\r`, and any other byte of ASCII that is no
/// printed character `\xHH`. So is each byte past ASCII if the whole is not UTF-8, or has a control character from U+0080 to U+009F, which
/// a terminal may obey. If memory runs out, the text may have a part of it.
pub fn push_escaped(text: &mut Vec<u8>, bytes: &[u8]) -> Result<(), AllocError>
    ensures { OnOk result (text.new.items ≡ text.old.items ++ escaped bytes.now) }
{
    let are_shown = is_text(bytes) && !has_controls(bytes);
    for byte in bytes {
        push_byte(text, *byte, are_shown)?;
    }
    Ok(())
}

// Whether two of the bytes are a control character.
fn has_controls(bytes: &[u8]) -> bool
    ensures { result ≡ has_controls 0 bytes.now }
{
    let mut rest = bytes;
    let mut last = 0;
    while let Some((byte, more)) = rest.split_first() {
        if is_control(last, *byte) {
            return true;
        }
        last = *byte;
        rest = more;
    }
    false
}

// Whether a byte and the next one are a control character from U+0080 to U+009F in UTF-8.
fn is_control(byte: u8, next: u8) -> bool
    ensures { result ≡ is_control byte next }
{
    byte == 0xc2 && next < 0xa0
}

// Whether bytes are UTF-8.
fn is_text(bytes: &[u8]) -> bool
    ensures { result ≡ is_text bytes.now }
{
    match std::str::from_utf8(bytes) {
        Ok(_) => true,
        Err(error) => error.valid_up_to() == bytes.len(),
    }
}

// Appends a byte of a column, where those past ASCII are shown as they are or not.
fn push_byte(text: &mut Vec<u8>, byte: u8, are_shown: bool) -> Result<(), AllocError>
    ensures { OnOk result (text.new.items ≡ text.old.items ++ escape are_shown byte) }
{
    match byte {
        b'\\' => text.extend_from_slice(b"\\\\"),
        b'\t' => text.extend_from_slice(b"\\t"),
        b'\n' => text.extend_from_slice(b"\\n"),
        b'\r' => text.extend_from_slice(b"\\r"),
        b' '..=b'~' => Ok(text.push(byte)?),
        128.. if are_shown => Ok(text.push(byte)?),
        _ => push_hex(text, b"\\x", byte),
    }
}

/// Appends words as a terminal may show them: a control byte is `\xHH`, and so is each byte of a control character past ASCII, and each
/// byte past ASCII where the words are not UTF-8. If memory runs out, the text may have a part of it.
pub fn push_shown(text: &mut Vec<u8>, words: &[u8]) -> Result<(), AllocError>
    ensures { OnOk result (text.new.items ≡ text.old.items ++ shown words.now) }
{
    let are_text = is_text(words);
    let mut rest = words;
    let mut last = 0;
    while let Some((byte, more)) = rest.split_first() {
        let next = first_of(more);
        let is_shown = are_text && !(is_control(last, *byte) || is_control(*byte, next));
        push_shown_byte(text, *byte, is_shown)?;
        last = *byte;
        rest = more;
    }
    Ok(())
}

// Appends a byte of such words, where one past ASCII is shown as it is or not.
fn push_shown_byte(text: &mut Vec<u8>, byte: u8, is_shown: bool) -> Result<(), AllocError>
    ensures { OnOk result (text.new.items ≡ text.old.items ++ shown_byte is_shown byte) }
{
    match byte {
        b' '..=b'~' => Ok(text.push(byte)?),
        128.. if is_shown => Ok(text.push(byte)?),
        _ => push_hex(text, b"\\x", byte),
    }
}

// The first byte, and 0 where there is none.
fn first_of(bytes: &[u8]) -> u8
    ensures { result ≡ first_of bytes.now }
{
    match bytes {
        [byte, ..] => *byte,
        [] => 0,
    }
}

/// Appends bytes as a string of JSON has them, with its quotes. Where the whole is not UTF-8, each byte past ASCII is `\udcHH`, as Python's
/// surrogateescape has it. Where memory runs out, the text may have a part of it.
pub fn push_string(text: &mut Vec<u8>, bytes: &[u8]) -> Result<(), AllocError>
    ensures { OnOk result (text.new.items ≡ text.old.items ++ json_string bytes.now) }
{
    let are_text = is_text(bytes);
    text.extend_from_slice(b"\"")?;
    for byte in bytes {
        push_json_byte(text, *byte, are_text)?;
    }
    text.extend_from_slice(b"\"")
}

// Appends a byte of a string of JSON, where those past ASCII are characters or not.
fn push_json_byte(text: &mut Vec<u8>, byte: u8, are_text: bool) -> Result<(), AllocError>
    ensures { OnOk result (text.new.items ≡ text.old.items ++ json_escape are_text byte) }
{
    match byte {
        b'"' => text.extend_from_slice(b"\\\""),
        b'\\' => text.extend_from_slice(b"\\\\"),
        b' '..=b'~' => Ok(text.push(byte)?),
        128.. if are_text => Ok(text.push(byte)?),
        128.. => push_hex(text, b"\\udc", byte),
        _ => push_hex(text, b"\\u00", byte),
    }
}

// Appends a mark, and a byte by its two digits.
fn push_hex(text: &mut Vec<u8>, mark: &[u8], byte: u8) -> Result<(), AllocError>
    ensures { OnOk result (text.new.items ≡ text.old.items ++ (mark.now ++ hex byte)) }
{
    text.extend_from_slice(mark)?;
    text.extend_from_slice(&[digit_of(byte / 16), digit_of(byte % 16)])
}

fn digit_of(number: u8) -> u8
    requires { number < 16 }
    ensures { result ≡ digit_of number }
{
    if number < 10 {
        b'0' + number
    } else {
        b'a' - 10 + number
    }
}

/// The bytes that a column shows so. None where a backslash begins none of `\\`, `\t`, `\n`, `\r` and `\xHH`, with digits as `push_escaped`
/// has them. What needs no escape may have one.
pub fn unescaped(alloc: Global, column: &[u8]) -> Result<Option<Vec<u8>>, AllocError>
    ensures value { IfOk result (λ read. option_map (λ bytes. bytes.items) read ≡ unescaped column.now) }
    ensures back { IfOk result (λ read. ReadsBack column.now (option_map (λ bytes. bytes.items) read)) }
{
    let mut bytes = Vec::with_capacity(alloc, column.len())?;
    let mut rest = column;
    while let Some((byte, more)) = first_shown(rest) {
        bytes.push(byte)?;
        rest = more;
    }
    Ok(rest.is_empty().then_some(bytes))
}

// The byte that a column begins with, as it is or by an escape, and what is behind it. None where neither is there.
fn first_shown(column: &[u8]) -> Option<(u8, &[u8])>
    ensures value { option_map (λ first. (first.0, first.1.now)) result ≡ first_shown column.now }
    ensures shorter { IfSome result (λ first. length first.1.now < length column.now) }
{
    match column {
        [b'\\', escape @ ..] => first_escaped(escape),
        [byte, rest @ ..] => Some((*byte, rest)),
        [] => None,
    }
}

// The byte of an escape whose backslash was read, and what is behind it.
fn first_escaped(escape: &[u8]) -> Option<(u8, &[u8])>
    ensures value { option_map (λ first. (first.0, first.1.now)) result ≡ first_escaped escape.now }
    ensures shorter { IfSome result (λ first. length first.1.now < length escape.now) }
{
    match escape {
        [b'x', high, low, rest @ ..] => Some((byte_of(*high, *low)?, rest)),
        [letter, rest @ ..] => Some((meant_by(*letter)?, rest)),
        [] => None,
    }
}

// The byte of two digits.
fn byte_of(high: u8, low: u8) -> Option<u8>
    ensures { result ≡ byte_of high low }
{
    Some(value_of(high)? * 16 + value_of(low)?)
}

// The byte that a backslash and a letter stand for.
fn meant_by(letter: u8) -> Option<u8>
    ensures { result ≡ meant_by letter }
{
    match letter {
        b'\\' => Some(b'\\'),
        b't' => Some(b'\t'),
        b'n' => Some(b'\n'),
        b'r' => Some(b'\r'),
        _ => None,
    }
}

fn value_of(digit: u8) -> Option<u8>
    ensures value { result ≡ value_of digit }
    ensures low { IfSome result (λ value. value < 16) }
{
    match digit {
        b'0'..=b'9' => Some(digit - b'0'),
        b'a'..=b'f' => Some(digit - b'a' + 10),
        _ => None,
    }
}
