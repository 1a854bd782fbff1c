//! The fields of a message's header that a summary shows.
ghost use Rattle.std.specs.Prelude.{◌≡◌, ◌&&◌, codes, not, is_some, slice_index};
ghost use Rattle.std.specs.Str.{str_eq_ignore_ascii_case};
ghost use Rattle.md_head.specs.Bodies.{or_this, IsFirstField};
ghost use Rattle.md_head.specs.Scan.{is_initial};

use crate::body::FieldBody;
use crate::field::field;
use crate::line::{ends_section, group_end};

/// The first field of each of four names (RFC 5322, 3.6) in a message's header section, none where there is no such field. The case of a
/// name's letters doesn't matter (1.2.2). It borrows from the message and takes no memory.
#[derive(Drop, Debug, Default)]
pub struct HeaderFields<'a> {
    pub subject: Option<FieldBody<'a>>,
    pub from: Option<FieldBody<'a>>,
    pub message_id: Option<FieldBody<'a>>,
    pub date: Option<FieldBody<'a>>,
}

/// Reads the header section of a message, in one pass that ends at the first empty line, or where each of the four was found.
pub fn header_fields(message: &[u8]) -> HeaderFields<'_>
    ensures subject { IsFirstField message.now (codes "subject") result.subject }
    ensures from { IsFirstField message.now (codes "from") result.from }
    ensures message_id { IsFirstField message.now (codes "message-id") result.message_id }
    ensures date { IsFirstField message.now (codes "date") result.date }
{
    let mut fields = HeaderFields::default();
    let mut left = message;
    while !ends_section(left) {
        if begins_other(left) {
            left = &left[group_end(left)..];
        } else {
            let (group, rest) = left.split_at(group_end(left));
            if let Some((name, folded)) = field(group) {
                fields.keep_first(name, FieldBody { folded });
                if fields.is_complete() {
                    return fields;
                }
            }
            left = rest;
        }
    }
    fields
}

// Whether a text begins as none of the four names does. Most fields are passed over by this one byte.
fn begins_other(text: &[u8]) -> bool
    ensures { result ≡ not (is_initial (slice_index text.now 0)) }
{
    !matches!(text, [first, ..] if is_initial(*first))
}

// Whether a byte is the first letter of one of the four names.
fn is_initial(byte: u8) -> bool
    ensures { result ≡ is_initial byte }
{
    matches!(byte, b'S' | b's' | b'F' | b'f' | b'M' | b'm' | b'D' | b'd')
}

impl<'a> HeaderFields<'a> {
    // Whether each of the four was found.
    fn is_complete(&self) -> bool
        ensures { result ≡ (is_some self.now.subject && is_some self.now.from && is_some self.now.message_id && is_some self.now.date) }
    {
        self.subject.is_some()
            && self.from.is_some()
            && self.message_id.is_some()
            && self.date.is_some()
    }

    // Keeps the body of a field under its name, where that is one of the four and has no body yet.
    fn keep_first(&mut self, name: &[u8], body: FieldBody<'a>)
        ensures subject { self.new.subject ≡ or_this self.old.subject (str_eq_ignore_ascii_case name.now (codes "subject")) body.entry }
        ensures from { self.new.from ≡ or_this self.old.from (str_eq_ignore_ascii_case name.now (codes "from")) body.entry }
        ensures message_id { self.new.message_id ≡ or_this self.old.message_id (str_eq_ignore_ascii_case name.now (codes "message-id")) body.entry }
        ensures date { self.new.date ≡ or_this self.old.date (str_eq_ignore_ascii_case name.now (codes "date")) body.entry }
    {
        keep_if(&mut self.subject, b"subject", name, body);
        keep_if(&mut self.from, b"from", name, body);
        keep_if(&mut self.message_id, b"message-id", name, body);
        keep_if(&mut self.date, b"date", name, body);
    }
}

// Keeps the body where there is none yet and its field has the name that is looked for.
fn keep_if<'a>(place: &mut Option<FieldBody<'a>>, wanted: &[u8], name: &[u8], body: FieldBody<'a>)
    ensures { place.new ≡ or_this place.old (str_eq_ignore_ascii_case name.now wanted.now) body.entry }
{
    if place.is_none() && name.eq_ignore_ascii_case(wanted) {
        *place = Some(body);
    }
}
