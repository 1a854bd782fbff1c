//! What C sees of a directory call that a driven job asks for.
ghost use Rattle.std.specs.Prelude.{◌≡◌, ◌≤◌, ◌+◌, ◌++◌, length, drop};
ghost use Rattle.md_jobs.specs.Requests.{request_view};
ghost use Rattle.md_driven.specs.Numbers.{status_number};
ghost use Rattle.md_driven.specs.Requested.{one_path, two_paths, request_shown, request_bytes, LaysRequest};

use crate::refusal::Refusal;
use crate::room::lay_at;
use crate::shown::place_number;
use md_jobs::{PathRef, Request};

/// A directory call: its number, the directory and the length of the name that it takes, and of a link and a rename the directory of the
/// second name. `second` is the length of the second name, or of the bytes of an append.
#[repr(C)]
#[derive(Clone, Copy)]
pub struct RequestShown {
    pub call: u32,
    pub folder: u32,
    pub place: u32,
    pub to_folder: u32,
    pub to_place: u32,
    pub reserved: u32,
    pub first: u64,
    pub second: u64,
}

// A call as it is shown, and the two pieces of its bytes.
struct Parts<'a> {
    shown: RequestShown,
    first: &'a [u8],
    second: &'a [u8],
}

// A call on one name, and the bytes that it brings.
fn on_one<'a>(call: u32, path: &PathRef<'a>, bytes: &'a [u8]) -> Parts<'a>
    ensures shown { result.shown ≡ one_path call path.now bytes.now }
    ensures first { result.first.now ≡ path.now.name }
    ensures second { result.second.now ≡ bytes.now }
{
    let name = path.name();
    let shown = RequestShown {
        call,
        folder: path.folder(),
        place: place_number(path.place()),
        to_folder: 0,
        to_place: 0,
        reserved: 0,
        first: name.len() as u64,
        second: bytes.len() as u64,
    };
    Parts {
        shown,
        first: name,
        second: bytes,
    }
}

// A call on two names.
fn on_two<'a>(call: u32, old: &PathRef<'a>, new: &PathRef<'a>) -> Parts<'a>
    ensures shown { result.shown ≡ two_paths call old.now new.now }
    ensures first { result.first.now ≡ old.now.name }
    ensures second { result.second.now ≡ new.now.name }
{
    let mut parts = on_one(call, old, new.name());
    parts.shown.to_folder = new.folder();
    parts.shown.to_place = place_number(new.place());
    parts
}

// A call taken apart.
fn taken_apart<'a>(request: &Request<'a>) -> Parts<'a>
    ensures shown { result.shown ≡ request_shown (request_view request.now) }
    ensures bytes { result.first.now ++ result.second.now ≡ request_bytes (request_view request.now) }
{
    match request {
        Request::Create { path } => on_one(1, path, &[]),
        Request::Append { path, bytes } => on_one(2, path, bytes),
        Request::Link { old, new } => on_two(3, old, new),
        Request::Rename { old, new } => on_two(4, old, new),
        Request::Unlink { path } => on_one(5, path, &[]),
        Request::List { folder, place } => on_one(6, &PathRef::new(*folder, *place, &[]), &[]),
    }
}

// Lays one piece after the other at the front of a buffer that has room for both.
fn lay_two(first: &[u8], second: &[u8], out: &mut [u8])
    requires { length first.now + length second.now ≤ length out.old }
    ensures { out.new ≡ (first.now ++ second.now) ++ drop (length first.now + length second.now) out.old }
{
    let at = lay_at(first, out, 0);
    lay_at(second, out, at);
}

/// Shows a call: lays its name and its second name or bytes at the front of a buffer that has room for both, and sets `whole` to how long
/// they are together. Refused `Room`, with the buffer as it was; `shown` and `whole` are set then too.
pub(crate) fn lay_request(
    request: &Request<'_>,
    shown: &mut RequestShown,
    out: &mut [u8],
    whole: &mut usize,
) -> Result<(), Refusal>
    ensures { LaysRequest (request_view request.now) shown.new out.old out.new whole.new (status_number result) }
{
    let Parts {
        shown: about,
        first,
        second,
    } = taken_apart(request);
    *shown = about;
    *whole = first.len() + second.len();
    if out.len() < *whole {
        return Err(Refusal::Room);
    }
    lay_two(first, second, out);
    Ok(())
}
