//! The line of a message in a listing.
ghost use Rattle.std.specs.Prelude.{◌≡◌, ◌++◌, OnOk};
ghost use Rattle.std.specs.Option.{option_copied};
ghost use Rattle.md_maildirs.specs.Rows.{message_text, object_text, line_text, flags_in, flags_text, json_flags_text, columns_text};
ghost use Rattle.md_maildirs.specs.Rows.{header_columns_text, value_text, seconds_text, fields_text, more_fields_text};
ghost use Rattle.md_maildirs.specs.Rows.{header_fields_text, number_fields_text, value_fields_text, named_field};

use itoa::Buffer;
use md_command::{push_escaped, push_number, push_string};
use md_dirs::{Bytes, Place};
use md_head::Summary;
use md_name::{Flags, split, unique_part};
use md_text::place_text;
use std::alloc::AllocError;

/// What the headers of a message say, and its size in bytes.
#[derive(Drop)]
pub(crate) struct Headers {
    pub(crate) size: u64,
    pub(crate) summary: Summary,
}

/// What a listing shows of a message, and how.
#[derive(Clone, Copy)]
pub struct Shape {
    /// An object of JSON in place of columns.
    pub is_json: bool,
    pub with_headers: bool,
}

/// Appends the line of a message of this place and whole name. Headers that are wanted and not there are shown by `-` in each column, and
/// by no field.
pub(crate) fn push_message(
    text: &mut Vec<u8>,
    shape: Shape,
    place: Place,
    name: &[u8],
    headers: Option<&Headers>,
) -> Result<(), AllocError>
    ensures { OnOk result (text.new.items ≡ text.old.items ++ message_text shape place name.now (option_copied headers.entry)) }
{
    if shape.is_json {
        push_object(text, place, name, headers)
    } else {
        push_line(text, shape.with_headers, place, name, headers)
    }
}

fn push_object(
    text: &mut Vec<u8>,
    place: Place,
    name: &[u8],
    headers: Option<&Headers>,
) -> Result<(), AllocError>
    ensures { OnOk result (text.new.items ≡ text.old.items ++ object_text place name.now (option_copied headers.entry)) }
{
    push_fields(text, place, name)?;
    push_more_fields(text, headers)?;
    text.extend_from_slice(b"}\n")
}

fn push_line(
    text: &mut Vec<u8>,
    with_headers: bool,
    place: Place,
    name: &[u8],
    headers: Option<&Headers>,
) -> Result<(), AllocError>
    ensures { OnOk result (text.new.items ≡ text.old.items ++ line_text with_headers place name.now (option_copied headers.entry)) }
{
    push_columns(text, place, name)?;
    if with_headers {
        push_header_columns(text, headers)?;
    }
    text.extend_from_slice(b"\n")
}

// Appends the columns of a message of this place and whole name: its place, its flags and its unique name. `-` stands for no flags, and `?`
// for flags that can't be read.
fn push_columns(text: &mut Vec<u8>, place: Place, name: &[u8]) -> Result<(), AllocError>
    ensures { OnOk result (text.new.items ≡ text.old.items ++ columns_text place name.now) }
{
    text.extend_from_slice(place_text(place))?;
    text.extend_from_slice(b"\t")?;
    push_flags(text, flags_of(name))?;
    text.extend_from_slice(b"\t")?;
    push_escaped(text, unique_part(name))
}

fn push_flags(text: &mut Vec<u8>, flags: Option<Flags>) -> Result<(), AllocError>
    ensures { OnOk result (text.new.items ≡ text.old.items ++ flags_text flags) }
{
    let Some(flags) = flags else {
        return text.extend_from_slice(b"?");
    };
    let before = text.len();
    flags.write_onto(text)?;
    if text.len() == before {
        text.extend_from_slice(b"-")?;
    }
    Ok(())
}

// The flags of a name, if its info has any.
fn flags_of(name: &[u8]) -> Option<Flags>
    ensures { result ≡ flags_in name.now }
{
    match split(name) {
        Some((_, info)) => info.flags(),
        None => None,
    }
}

// Appends the columns of headers: the size, the second of the date, the sender and the subject. `-` stands for no value.
fn push_header_columns(text: &mut Vec<u8>, headers: Option<&Headers>) -> Result<(), AllocError>
    ensures { OnOk result (text.new.items ≡ text.old.items ++ header_columns_text (option_copied headers.entry)) }
{
    let Some(headers) = headers else {
        return text.extend_from_slice(b"\t-\t-\t-\t-");
    };
    text.extend_from_slice(b"\t")?;
    push_number(text, headers.size)?;
    text.extend_from_slice(b"\t")?;
    push_seconds(text, headers.summary.seconds, b"-")?;
    text.extend_from_slice(b"\t")?;
    push_value(text, headers.summary.from.as_ref())?;
    text.extend_from_slice(b"\t")?;
    push_value(text, headers.summary.subject.as_ref())
}

fn push_value(text: &mut Vec<u8>, value: Option<&Bytes>) -> Result<(), AllocError>
    ensures { OnOk result (text.new.items ≡ text.old.items ++ value_text (option_copied value.entry)) }
{
    match value {
        Some(value) => push_escaped(text, value.as_slice()),
        None => text.extend_from_slice(b"-"),
    }
}

fn push_seconds(text: &mut Vec<u8>, seconds: Option<i64>, none: &[u8]) -> Result<(), AllocError>
    ensures { OnOk result (text.new.items ≡ text.old.items ++ seconds_text seconds none.now) }
{
    match seconds {
        Some(seconds) => {
            let mut buffer = Buffer::new();
            text.extend_from_slice(buffer.format(seconds).as_bytes())
        }
        None => text.extend_from_slice(none),
    }
}

// Appends the fields of a message in an object of JSON, and the brace in front of them.
fn push_fields(text: &mut Vec<u8>, place: Place, name: &[u8]) -> Result<(), AllocError>
    ensures { OnOk result (text.new.items ≡ text.old.items ++ fields_text place name.now) }
{
    text.extend_from_slice(b"{\"place\":\"")?;
    text.extend_from_slice(place_text(place))?;
    text.extend_from_slice(b"\",\"flags\":")?;
    push_json_flags(text, flags_of(name))?;
    text.extend_from_slice(b",\"unique\":")?;
    push_string(text, unique_part(name))?;
    text.extend_from_slice(b",\"name\":")?;
    push_string(text, name)
}

fn push_json_flags(text: &mut Vec<u8>, flags: Option<Flags>) -> Result<(), AllocError>
    ensures { OnOk result (text.new.items ≡ text.old.items ++ json_flags_text flags) }
{
    let Some(flags) = flags else {
        return text.extend_from_slice(b"null");
    };
    text.extend_from_slice(b"\"")?;
    flags.write_onto(text)?;
    text.extend_from_slice(b"\"")
}

// Appends the fields of headers, if they are there.
fn push_more_fields(text: &mut Vec<u8>, headers: Option<&Headers>) -> Result<(), AllocError>
    ensures { OnOk result (text.new.items ≡ text.old.items ++ more_fields_text (option_copied headers.entry)) }
{
    match headers {
        Some(headers) => push_header_fields(text, headers),
        None => Ok(()),
    }
}

// Appends the fields of headers. A value that is not there is null.
fn push_header_fields(text: &mut Vec<u8>, headers: &Headers) -> Result<(), AllocError>
    ensures { OnOk result (text.new.items ≡ text.old.items ++ header_fields_text headers.now) }
{
    push_number_fields(text, headers.size, headers.summary.seconds)?;
    push_value_fields(text, &headers.summary)
}

fn push_number_fields(text: &mut Vec<u8>, size: u64, seconds: Option<i64>) -> Result<(), AllocError>
    ensures { OnOk result (text.new.items ≡ text.old.items ++ number_fields_text size seconds) }
{
    text.extend_from_slice(b",\"size\":")?;
    push_number(text, size)?;
    text.extend_from_slice(b",\"date\":")?;
    push_seconds(text, seconds, b"null")
}

fn push_value_fields(text: &mut Vec<u8>, summary: &Summary) -> Result<(), AllocError>
    ensures { OnOk result (text.new.items ≡ text.old.items ++ value_fields_text summary.now) }
{
    push_field(text, b",\"from\":", &summary.from)?;
    push_field(text, b",\"subject\":", &summary.subject)?;
    push_field(text, b",\"message_id\":", &summary.message_id)?;
    Ok(())
}

// Appends what begins a field, and its value.
fn push_field(text: &mut Vec<u8>, begins: &[u8], value: &Option<Bytes>) -> Result<(), AllocError>
    ensures { OnOk result (text.new.items ≡ text.old.items ++ named_field begins.now value.now) }
{
    text.extend_from_slice(begins)?;
    match value {
        Some(value) => push_string(text, value.as_slice()),
        None => text.extend_from_slice(b"null"),
    }
}
