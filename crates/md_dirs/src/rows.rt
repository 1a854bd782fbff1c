//! What a directory shows of a name.
ghost use Rattle.std.specs.Prelude.{◌≡◌, IfOk, length, nat_lt};
ghost use Rattle.md_name.specs.Names.{unique_of};
ghost use Rattle.md_dirs.specs.Find.{zone, before_colon};
ghost use Rattle.md_dirs.specs.Rows.{row_named, ends_unique, is_named as is_named_by};

use md_name::{Bytes, unique_part};
use std::alloc::{AllocError, Global};
use std::marker::Model;

/// A name of a directory, with the stamp of its file in seconds and its size in bytes.
#[derive(Debug, Drop)]
pub struct Row {
    pub name: Bytes,
    pub stamp: u64,
    pub size: u64,
}

/// A row of a directory whose name is lent, and how long the unique part of that is. Contracts see it as a row.
#[derive(Clone, Debug, Drop)]
pub struct RowRef<'a> {
    name: &'a [u8],
    // How many bytes the unique part of the name has.
    unique: usize,
    stamp: u64,
    size: u64,
}

impl<'a> Model for RowRef<'a> {
    ghost use Rattle.std.specs.Prelude.{◌≡◌, length};
    ghost use Rattle.md_name.specs.Names.{unique_of};
    ghost use Rattle.md_dirs.specs.declared.rows.Row.{Row};

    ghost Value = { Row };

    ghost view = { λ r. record { name = r.name.now; stamp = r.stamp; size = r.size } };

    ghost invariant = { λ r. r.unique ≡ length (unique_of r.name.now) };
}

impl Row {
    /// A copy of this row. It is refused only when out of memory.
    pub fn again(&self, alloc: Global) -> Result<Row, AllocError>
        ensures { IfOk result (λ row. row ≡ self.now) }
    {
        Ok(Row {
            name: self.name.again(alloc)?,
            stamp: self.stamp,
            size: self.size,
        })
    }
}

impl<'a> RowRef<'a> {
    /// A row whose name is lent, with a stamp in seconds and a size in bytes. The name is read up to its first colon.
    pub fn new(name: &'a [u8], stamp: u64, size: u64) -> Self
        ensures { result ≡ record { name = name.now; stamp = stamp; size = size } }
    {
        RowRef::known(name, unique_part(name).len(), stamp, size)
    }

    /// The same where it is known how many bytes the unique part of the name has: no byte is looked at.
    #[inline(always)]
    pub(crate) fn known(name: &'a [u8], unique: usize, stamp: u64, size: u64) -> Self
        requires { unique ≡ length (unique_of name.now) }
        ensures { result ≡ record { name = name.now; stamp = stamp; size = size } }
    {
        RowRef {
            name,
            unique,
            stamp,
            size,
        }
    }

    /// The whole name.
    #[inline(always)]
    pub fn name(&self) -> &'a [u8]
        ensures { result.now ≡ self.now.name }
    {
        self.name
    }

    /// The unique part of the name: all before its first colon, or all of it. No byte is looked at.
    #[inline(always)]
    pub fn unique(&self) -> &'a [u8]
        ensures { result.now ≡ unique_of self.now.name }
    {
        &self.name[..self.unique]
    }

    /// The stamp of the file in seconds.
    #[inline(always)]
    pub fn stamp(&self) -> u64
        ensures { result ≡ self.now.stamp }
    {
        self.stamp
    }

    /// The size of the file in bytes.
    #[inline(always)]
    pub fn size(&self) -> u64
        ensures { result ≡ self.now.size }
    {
        self.size
    }

    /// A copy of this row. It is refused only when out of memory.
    pub fn copied(&self, alloc: Global) -> Result<Row, AllocError>
        ensures { IfOk result (λ row. row ≡ self.now) }
    {
        Ok(Row {
            name: Bytes::copied(alloc, self.name)?,
            stamp: self.stamp,
            size: self.size,
        })
    }
}

// A copy of a row, if there is one. It is refused only when out of memory.
pub(crate) fn copied_row(alloc: Global, row: Option<RowRef<'_>>) -> Result<Option<Row>, AllocError>
    ensures { IfOk result (λ copy. copy ≡ row.entry) }
{
    let Some(row) = row else {
        return Ok(None);
    };
    Ok(Some(row.copied(alloc)?))
}

// Whether a unique name ends where this begins.
fn ends_unique_name(rest: &[u8]) -> bool
    ensures { result ≡ ends_unique rest.now }
{
    match rest {
        [] => true,
        [first, ..] => *first == b':',
    }
}

/// Whether a name is a unique name, or a unique name, a colon and more (maildir(5)).
pub fn is_named(name: &[u8], unique: &[u8]) -> bool
    ensures { result ≡ is_named_by unique.now name.now }
{
    name.starts_with(unique) && ends_unique_name(&name[unique.len()..])
}

// Whether a name is below a unique name.
pub(crate) fn is_below(name: &[u8], unique: &[u8]) -> bool
    ensures { result ≡ nat_lt (zone unique.now name.now) 1 }
{
    name.cmp(unique).is_lt()
}

// Whether what follows a unique name ends, or goes on before a colon.
fn goes_before_colon(rest: &[u8]) -> bool
    ensures { result ≡ before_colon rest.now }
{
    match rest {
        [] => true,
        [first, ..] => *first < b':',
    }
}

// Whether a name is below a unique name with a colon.
pub(crate) fn is_below_info(name: &[u8], unique: &[u8]) -> bool
    ensures { result ≡ nat_lt (zone unique.now name.now) 3 }
{
    if name.starts_with(unique) {
        goes_before_colon(&name[unique.len()..])
    } else {
        name.cmp(unique).is_lt()
    }
}

// The first row that has the unique name.
pub(crate) fn first_named(rows: Vec<Row>, unique: &[u8]) -> Option<Row>
    ensures { result ≡ row_named unique.now rows.items }
{
    rows.into_iter()
        .find(|row| is_named(row.name.as_slice(), unique))
}
