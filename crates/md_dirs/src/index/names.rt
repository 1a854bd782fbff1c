//! The names of one directory, hashed, and their order, once it is asked for.
ghost use Rattle.std.specs.Prelude.{◌≡◌, ◌⊎◌, ◌<◌, ◌+◌, ◌++◌, ◌∷◌, ◌^◌, [], None, Some, OnOk, OnErr, IfOk, IfSome, IfNone, IsSome, IsTrue, All, true, false, length, map, slice_get, take, drop, is_none, if◌then◌else◌, find as first_with, IsPermutation};
ghost use Rattle.std.specs.Option.{option_map};
ghost use Rattle.std.specs.List.{list_any, IsDistinct};
ghost use Rattle.std.specs.Map.{keys_of};
ghost use Rattle.std.specs.Str.{bytes_eq};
ghost use Rattle.std.specs.FinMap as finmap;
ghost use Rattle.md_name.specs.Names.{is_colon};
ghost use Rattle.md_dirs.specs.State.{file_by};
ghost use Rattle.md_dirs.specs.Files.{files_of, name_row};
ghost use Rattle.md_dirs.specs.Slots.{slots_of};
ghost use Rattle.md_dirs.specs.Rows.{is_named};
ghost use Rattle.md_dirs.specs.Lent.{AreNext};
ghost use Rattle.md_dirs.specs.Once.{EachOnce};
ghost use Rattle.md_dirs.specs.Least.{lent_row};
ghost use Rattle.md_dirs.specs.Named.{is_alike, GoesLast};
ghost use Rattle.md_dirs.specs.Index.{name_cmp, rows_at, get_name, IsOrderOf};

use crate::files::shown_row;
use crate::hashing::HashSeed;
use crate::index::least::{Wanted, least, nth};
use crate::index::lying::{with_others, with_rows};
use crate::index::named::Named;
use crate::index::sorting::{all_rows, sorted_order};
use crate::index::tables::{Others, Table};
use crate::name_key::NameKey;
use crate::rows::{Row, RowRef};
use crate::slots::Slots;
use md_name::unique_part;
use std::alloc::{AllocError, Global};
use std::marker::Model;

// How many rows of a directory in order are lent at once, so that they stay in the nearest cache.
const LENT: usize = 256;

/// The names of one directory, each with the number of its file.
///
/// The table has a row for each unique part, under which it is hashed, so one look finds a message whatever its flags. A second name of
/// the same unique part, of which a maildir has none but by mistake, stands beside the table, hashed whole.
///
/// The order is the positions of the table's rows in order of their names. It is made when it is asked for, and kept while names come behind
/// all others or change their info: so names that nobody lists, as those in tmp, have no order to be kept.
#[derive(Drop)]
pub(crate) struct Names {
    table: Table<'static>,
    others: Others,
    order: Vec<usize>,
    // The position of the row that is looked at first: the one that was last found, added or renamed, or the one after the last that was
    // taken away. It may be past the end.
    near: usize,
}

impl Model for Names {
    ghost use Rattle.std.specs.Prelude.{◌++◌};
    ghost use Rattle.std.specs.FinMap.{from_entries};
    ghost use Rattle.md_dirs.specs.Index.{NameMap, name_code};
    ghost use Rattle.md_dirs.specs.Named.{AreNames};

    ghost Value = { NameMap };

    ghost coded = { name_code };

    ghost view = { λ d. from_entries (d.table.keys ++ d.others.entries) };

    ghost invariant = { λ d. AreNames d.table.keys d.others.entries d.order.items };
}

// The number of the file of a name that stands beside the table.
fn file_beside(others: &Others, name: &[u8]) -> Option<usize>
    ensures { result ≡ get_name others.now.entries name.now }
{
    if others.is_empty() {
        return None;
    }
    let key = NameKey::lent(name);
    others.get(&key).copied()
}

// Gives a name that stands beside the table to a file.
fn put_beside(
    others: &mut Others,
    alloc: Global,
    name: &[u8],
    file: usize,
) -> Result<(), AllocError>
    ensures names { OnOk result ((q : _) → get_name others.new.entries q
        ≡ if bytes_eq name.now q then Some file else get_name others.old.entries q) }
    ensures err { OnErr result (others.new.entries ≡ others.old.entries) }
{
    let name = Vec::from_slice(alloc, name)?;
    others.insert(NameKey::owned(name), file)?;
    Ok(())
}

// Takes a name away that stands beside the table, and gives the number of its file.
fn take_beside(others: &mut Others, name: &[u8]) -> Option<usize>
    ensures file { result ≡ get_name others.old.entries name.now }
    ensures names { (q : _) → get_name others.new.entries q ≡ if bytes_eq name.now q then None else get_name others.old.entries q }
{
    if others.is_empty() {
        return None;
    }
    let key = NameKey::lent(name);
    let (at, _, _) = others.get_full(&key)?;
    let (_, file) = others.swap_remove_index(at)?;
    Some(file)
}

// Where the row of the table is that is alike to one, and that row. To count the rows says that no two are alike.
fn row_like<'a>(table: &'a Table<'a>, row: &'a Named<'a>) -> Option<(usize, &'a Named<'a>)>
    ensures there { IfSome result (λ r. slice_get table.now.keys r.0 ≡ Some r.1.now) }
    ensures found { option_map (λ r. r.1.now) result ≡ first_with (is_alike row.now) table.now.keys }
    ensures apart { IsDistinct is_alike table.now.keys }
{
    if table.len() == 0 {
        return None;
    }
    table.get_full(row)
}

// Where a name is in the table, and the number of its file.
fn place_in(table: &Table<'static>, name: &[u8]) -> Option<(usize, usize)>
    ensures there { IfSome result (λ r. slice_get table.now.keys r.0 ≡ Some (name.now, r.1)) }
    ensures file { option_map (λ r. r.1) result ≡ get_name table.now.keys name.now }
    ensures apart { IsDistinct is_alike table.now.keys }
{
    let key = Named::lent(name);
    let (at, row) = row_like(table, &key)?;
    if row.is(name) {
        Some((at, row.file()))
    } else {
        None
    }
}

// The row of a name, where it is at a position. To count the rows says that no two are alike.
fn row_of<'a>(table: &'a Table<'static>, at: usize, name: &[u8]) -> Option<&'a Named<'static>>
    ensures there { IfSome result (λ row. slice_get table.now.keys at ≡ Some (name.now, row.now.1)) }
    ensures name { IfSome result (λ row. row.now.0 ≡ name.now) }
    ensures apart { IsDistinct is_alike table.now.keys }
{
    if at >= table.len() {
        return None;
    }
    let row = table.get_index(at)?;
    if row.is(name) { Some(row) } else { None }
}

// Where a name is in the table, and the number of its file. It is looked for at a position first.
fn place_near(table: &Table<'static>, name: &[u8], near: usize) -> Option<(usize, usize)>
    ensures there { IfSome result (λ r. slice_get table.now.keys r.0 ≡ Some (name.now, r.1)) }
    ensures file { option_map (λ r. r.1) result ≡ get_name table.now.keys name.now }
    ensures apart { IsDistinct is_alike table.now.keys }
{
    match row_of(table, near, name) {
        Some(row) => Some((near, row.file())),
        None => place_in(table, name),
    }
}

// Whether a name goes behind all rows of a table whose order is made. Names mostly come in the order of time.
fn goes_last(table: &Table<'static>, order: &[usize], name: &[u8]) -> bool
    requires { (order.now ≡ []) ⊎ IsOrderOf table.now.keys order.now }
    ensures { IsTrue result → GoesLast table.now.keys order.now name.now }
{
    if order.len() != table.len() {
        return false;
    }
    match order.last() {
        None => true,
        Some(last) => table.get_index(*last).unwrap().name().cmp(name).is_lt(),
    }
}

// The row of a unique name in a table beside which no name stands. To count the rows says that no two are alike.
fn row_named<'a>(table: &'a Table<'static>, key: &Named<'_>) -> Option<&'a Named<'static>>
    requires { list_any is_colon key.now.0 ≡ false }
    ensures { option_map (λ r. r.now) result ≡ first_with (λ e. is_named key.now.0 e.0)
        (finmap.entries {R = name_cmp} (finmap.from_entries table.now.keys)) }
{
    let at = (&*table).get_index_of(&*key)?;
    Some(&table.as_slice()[at])
}

// The row at a position of an order.
fn row_in_order<'a>(
    table: &'a Table<'static>,
    order: &[usize],
    at: usize,
) -> Option<&'a Named<'static>>
    requires { IsOrderOf table.now.keys order.now }
    ensures { option_map (λ r. r.now) result ≡ slice_get (finmap.entries {R = name_cmp} (finmap.from_entries table.now.keys)) at }
{
    let position = order.get(at)?;
    table.get_index(*position)
}

// Adds a row to a table where none has its unique part, and says where the row is that has it else.
fn add_row(
    table: &mut Table<'static>,
    order: &mut Vec<usize>,
    row: Named<'static>,
) -> Result<Option<usize>, AllocError>
    requires { (order.old.items ≡ []) ⊎ IsOrderOf table.old.keys order.old.items }
    ensures added { IfOk result (λ there. IfNone there ((table.new.keys ≡ table.old.keys ++ row.entry ∷ [])
        × (list_any (is_alike row.entry) table.old.keys ≡ false))) }
    ensures there { IfOk result (λ there. IfSome there (λ at. (table.new.keys ≡ table.old.keys)
        × ((found : _) × (slice_get table.old.keys at ≡ Some found) × (first_with (is_alike row.entry) table.old.keys ≡ Some found)))) }
    ensures apart { OnOk result (IsDistinct is_alike table.new.keys) }
    ensures err { OnErr result (table.new.keys ≡ table.old.keys) }
    ensures ordered { (order.new.items ≡ []) ⊎ IsOrderOf table.new.keys order.new.items }
{
    let is_last = goes_last(table, order, row.name());
    order.reserve(1)?;
    let (at, is_new) = table.insert_full(row)?;
    if !is_new {
        return Ok(Some(at));
    }
    if is_last {
        order.push_reserved(at);
    } else {
        order.clear();
    }
    Ok(None)
}

// Whether two names have info each.
fn both_have_info(old: &Named<'static>, new: &Named<'static>) -> bool
    ensures { IsTrue result → (list_any is_colon old.now.0 ≡ true) × (list_any is_colon new.now.0 ≡ true) }
{
    old.has_info() && new.has_info()
}

// Lets an order go, unless it stays.
fn keep_order(order: &mut Vec<usize>, stays: bool)
    ensures { order.new.items ≡ if stays then order.old.items else [] }
{
    if !stays {
        order.clear();
    }
}

// Gives the row at a position another name of the same unique part, where it is the row of a name: whether it did. Where both names have
// info, the order stays as it is.
fn rename_row(
    table: &mut Table<'static>,
    order: &mut Vec<usize>,
    alloc: Global,
    at: usize,
    old: &[u8],
    new: &[u8],
    file: usize,
) -> Result<bool, AllocError>
    requires ordered { (order.old.items ≡ []) ⊎ IsOrderOf table.old.keys order.old.items }
    ensures there { IfOk result (λ is_done. IsTrue is_done → IsSome (get_name table.old.keys old.now)) }
    ensures free { IfOk result (λ is_done. IsTrue is_done → get_name table.old.keys new.now ≡ None) }
    ensures names { IfOk result (λ is_done. IsTrue is_done → ((q : _) → get_name table.new.keys q
        ≡ if bytes_eq old.now q then None else (if bytes_eq new.now q then Some file else get_name table.old.keys q))) }
    ensures kept { IfOk result (λ is_done. is_done ≡ false → table.new.keys ≡ table.old.keys) }
    ensures err { OnErr result (table.new.keys ≡ table.old.keys) }
    ensures ordered { (order.new.items ≡ []) ⊎ IsOrderOf table.new.keys order.new.items }
{
    let Some(row) = row_of(table, at, old) else {
        return Ok(false);
    };
    let renamed = Named::copied(alloc, new, file)?;
    if row.is(new) || row.unique() != renamed.unique() {
        return Ok(false);
    }
    let stays = both_have_info(row, &renamed);
    table.replace(renamed)?;
    keep_order(order, stays);
    Ok(true)
}

// Whether the order shows all names.
fn is_arranged(table: &Table<'static>, others: &Others, order: &[usize]) -> bool
    requires { (order.now ≡ []) ⊎ IsOrderOf table.now.keys order.now }
    ensures { IsTrue result → (others.now.entries ≡ []) × IsOrderOf table.now.keys order.now }
{
    others.is_empty() && order.len() == table.len()
}

// The positions of an order from one on, a few.
fn next_of(order: &[usize], from: usize) -> &[usize]
    ensures rest { result.now ≡ take (length result.now) (drop from order.now) }
    ensures some { from < length order.now → 0 < length result.now }
{
    let from = from.min(order.len());
    let end = from.saturating_add(LENT).min(order.len());
    &order[from..end]
}

// The rows at positions of the table, lent.
fn lent_rows<'a>(
    alloc: Global,
    table: &'a Table<'static>,
    positions: &[usize],
    slots: &'a Slots,
) -> Result<Vec<RowRef<'a>>, AllocError>
    requires within { All (λ i. i < length table.now.keys) positions.now }
    requires filed { All (λ e. IsSome (file_by (files_of (slots_of slots.now)) e.1)) (rows_at table.now.keys positions.now) }
    ensures { IfOk result (λ lent. lent.items
        ≡ map (name_row (files_of (slots_of slots.now))) (rows_at table.now.keys positions.now)) }
{
    let mut lent = Vec::with_capacity(alloc, positions.len())?;
    for at in positions {
        let row = table.get_index(*at).unwrap();
        lent.push(row.shown(slots))?;
    }
    Ok(lent)
}

// The positions of an order from one on, all of them.
fn rest_of(order: &[usize], from: usize) -> &[usize]
    ensures { result.now ≡ drop from order.now }
{
    let from = from.min(order.len());
    &order[from..]
}

// The rows from a position on of a directory whose order is not made, lent: by one sort.
fn sorted_rows<'a>(
    alloc: Global,
    rows: &[(&'a [u8], usize)],
    from: usize,
    slots: &'a Slots,
) -> Result<Vec<RowRef<'a>>, AllocError>
    requires distinct { IsDistinct bytes_eq (keys_of (map lent_row rows.now)) }
    requires filed { All (λ e. IsSome (file_by (files_of (slots_of slots.now)) e.1))
        (finmap.entries {R = name_cmp} (finmap.from_entries (map lent_row rows.now))) }
    ensures { IfOk result (λ lent. lent.items
        ≡ drop from (map (name_row (files_of (slots_of slots.now))) (finmap.entries {R = name_cmp} (finmap.from_entries (map lent_row rows.now))))) }
{
    let order = sorted_order(alloc, rows)?;
    let positions = rest_of(&order, from);
    let mut lent = Vec::with_capacity(alloc, positions.len())?;
    for at in positions {
        let (name, file) = rows[*at];
        lent.push(shown_row(slots, name, file))?;
    }
    Ok(lent)
}

// Adds copies of rows behind those that are there.
fn push_copies(shown: &mut Vec<Row>, alloc: Global, rows: &[RowRef<'_>]) -> Result<(), AllocError>
    ensures { OnOk result (shown.new.items ≡ shown.old.items ++ rows.now) }
{
    for row in rows {
        shown.push(row.copied(alloc)?)?;
    }
    Ok(())
}

impl Names {
    /// No name, and the seed that names are hashed by. It takes no memory.
    pub(crate) fn new(alloc: Global, seed: HashSeed) -> Self
        ensures { result ≡ finmap.empty }
    {
        Names {
            table: Table::with_hasher(alloc, seed),
            others: Others::with_hasher(alloc, seed),
            order: Vec::new(alloc),
            near: 0,
        }
    }

    /// The number of the file of a name.
    pub(crate) fn file_of(&self, name: &[u8]) -> Option<usize>
        ensures { result ≡ finmap.get self.now name.now }
    {
        match place_in(&self.table, name) {
            Some((_, file)) => Some(file),
            None => file_beside(&self.others, name),
        }
    }

    /// The same. A name that was just found or added is found again without a hash.
    pub(crate) fn find_file(&mut self, name: &[u8]) -> Option<usize>
        ensures file { result ≡ finmap.get self.old name.now }
        ensures same { self.new ≡ self.old }
    {
        let Some((at, file)) = place_near(&self.table, name, self.near) else {
            return file_beside(&self.others, name);
        };
        self.near = at;
        Some(file)
    }

    /// Gives a name to a file, unless it is there: whether it was not. The name is copied. When out of memory, nothing has changed.
    pub(crate) fn add(
        &mut self,
        alloc: Global,
        name: &[u8],
        file: usize,
    ) -> Result<bool, AllocError>
        ensures new { IfOk result (λ is_new. is_new ≡ is_none (finmap.get self.old name.now)) }
        ensures ok { IfOk result (λ is_new. self.new ≡ if is_new then finmap.insert self.old name.now file else self.old) }
        ensures err { OnErr result (self.new ≡ self.old) }
    {
        if file_beside(&self.others, name).is_some() {
            return Ok(false);
        }
        let row = Named::copied(alloc, name, file)?;
        let end = self.table.len();
        let Some(at) = add_row(&mut self.table, &mut self.order, row)? else {
            self.near = end;
            return Ok(true);
        };
        if self.table.get_index(at).unwrap().is(name) {
            return Ok(false);
        }
        put_beside(&mut self.others, alloc, name, file)?;
        Ok(true)
    }

    /// Gives a name to a file, also in place of the one that it named. The name is copied. When out of memory, nothing has changed.
    pub(crate) fn put(&mut self, alloc: Global, name: &[u8], file: usize) -> Result<(), AllocError>
        ensures ok { OnOk result (self.new ≡ finmap.insert self.old name.now file) }
        ensures err { OnErr result (self.new ≡ self.old) }
    {
        if self.add(alloc, name, file)? {
            return Ok(());
        }
        if place_in(&self.table, name).is_none() {
            put_beside(&mut self.others, alloc, name, file)?;
            return Ok(());
        }
        let row = Named::copied(alloc, name, file)?;
        self.table.replace(row)?;
        Ok(())
    }

    /// Takes a name away, and gives the number of its file. It takes no memory. In the table the last row takes the place that comes free,
    /// and the order is to be made again. The row after that place is the near one then: names mostly go in the order in which they came.
    pub(crate) fn take(&mut self, name: &[u8]) -> Option<usize>
        ensures file { result ≡ finmap.get self.old name.now }
        ensures gone { self.new ≡ finmap.remove self.old name.now }
    {
        let Some((at, file)) = place_near(&self.table, name, self.near) else {
            return take_beside(&mut self.others, name);
        };
        self.near = at.saturating_add(1);
        self.order.clear();
        let _gone = self.table.swap_remove_index(at);
        Some(file)
    }

    /// Gives the file of a name another name of the same unique part, where the old one was just found and no name stands beside the table:
    /// whether it did. The name is copied. Where both have info, the order stays as it is. When out of memory, nothing has changed.
    pub(crate) fn rename(
        &mut self,
        alloc: Global,
        old: &[u8],
        new: &[u8],
        file: usize,
    ) -> Result<bool, AllocError>
        ensures free { IfOk result (λ is_done. IsTrue is_done → finmap.get self.old new.now ≡ None) }
        ensures done { IfOk result (λ is_done. IsTrue is_done → self.new ≡ finmap.remove (finmap.insert self.old new.now file) old.now) }
        ensures kept { IfOk result (λ is_done. is_done ≡ false → self.new ≡ self.old) }
        ensures err { OnErr result (self.new ≡ self.old) }
    {
        if !self.others.is_empty() {
            return Ok(false);
        }
        rename_row(
            &mut self.table,
            &mut self.order,
            alloc,
            self.near,
            old,
            new,
            file,
        )
    }

    /// The row of the first name that is a unique name, or a unique name, a colon and more (maildir(5)), lent: by hash, unless some names
    /// stand beside the table.
    pub(crate) fn look<'a>(&'a self, unique: &[u8], slots: &'a Slots) -> Option<RowRef<'a>>
        requires { All (λ e. IsSome (file_by (files_of (slots_of slots.now)) e.1)) (finmap.entries self.now) }
        ensures { result ≡ option_map (name_row (files_of (slots_of slots.now))) (first_with (λ e. is_named unique.now e.0) (finmap.entries self.now)) }
    {
        let key = Named::lent(unique);
        if key.has_info() || !self.others.is_empty() {
            let (name, file) = least(&self.table, &self.others, Wanted::Named(unique))?;
            return Some(shown_row(slots, name, file));
        }
        let row = row_named(&self.table, &key)?;
        Some(row.shown(slots))
    }

    /// Whether no two names have one unique part: none stands beside the table. False says nothing.
    pub(crate) fn holds_each_once(&self) -> bool
        ensures { IsTrue result → EachOnce (finmap.get self.now) }
    {
        // To count the rows says that no two of the table are alike.
        let _rows = self.table.len();
        self.others.is_empty()
    }

    /// How many names there are.
    pub(crate) fn count(&self) -> usize
        ensures { result ≡ length (finmap.entries self.now) }
    {
        self.table.len() + self.others.len()
    }

    /// Makes the order, unless it is made. It is refused only when out of memory.
    pub(crate) fn arrange(&mut self, alloc: Global) -> Result<(), AllocError>
        ensures { self.new ≡ self.old }
    {
        if !self.others.is_empty() || self.order.len() == self.table.len() {
            return Ok(());
        }
        let rows = all_rows(alloc, &self.table, &self.others)?;
        self.order = sorted_order(alloc, &rows)?;
        Ok(())
    }

    /// The row at a position in order of the names, lent. Where the order is not made, each name is looked at for each position up to that.
    pub(crate) fn row_at<'a>(&'a self, at: usize, slots: &'a Slots) -> Option<RowRef<'a>>
        requires { All (λ e. IsSome (file_by (files_of (slots_of slots.now)) e.1)) (finmap.entries self.now) }
        ensures row { result ≡ option_map (name_row (files_of (slots_of slots.now))) (slice_get (finmap.entries self.now) at) }
        ensures few { IfSome result (λ _. at + 1 < 2 ^ 64) }
    {
        if at >= self.count() {
            return None;
        }
        if is_arranged(&self.table, &self.others, &self.order) {
            let row = row_in_order(&self.table, &self.order, at)?;
            return Some(row.shown(slots));
        }
        let (name, file) = nth(&self.table, &self.others, at)?;
        Some(shown_row(slots, name, file))
    }

    /// All rows, copied. It is refused only when out of memory.
    pub(crate) fn rows<'a>(
        &'a self,
        alloc: Global,
        slots: &'a Slots,
    ) -> Result<Vec<Row>, AllocError>
        requires { All (λ e. IsSome (file_by (files_of (slots_of slots.now)) e.1)) (finmap.entries self.now) }
        ensures { IfOk result (λ shown. shown.items ≡ map (name_row (files_of (slots_of slots.now))) (finmap.entries self.now)) }
    {
        let mut shown = Vec::with_capacity(alloc, self.count())?;
        loop {
            let lent = self.rows_from(alloc, shown.len(), slots)?;
            if lent.is_empty() {
                return Ok(shown);
            }
            push_copies(&mut shown, alloc, &lent)?;
        }
    }

    /// Rows from a position on, lent: at least one, where there is one. It is refused only when out of memory.
    pub(crate) fn rows_from<'a>(
        &'a self,
        alloc: Global,
        from: usize,
        slots: &'a Slots,
    ) -> Result<Vec<RowRef<'a>>, AllocError>
        requires { All (λ e. IsSome (file_by (files_of (slots_of slots.now)) e.1)) (finmap.entries self.now) }
        ensures { IfOk result (λ lent.
            AreNext (map (name_row (files_of (slots_of slots.now))) (finmap.entries self.now)) from lent.items) }
    {
        if is_arranged(&self.table, &self.others, &self.order) {
            return lent_rows(alloc, &self.table, next_of(&self.order, from), slots);
        }
        if from >= self.count() {
            return Ok(Vec::new(alloc));
        }
        let rows = all_rows(alloc, &self.table, &self.others)?;
        sorted_rows(alloc, &rows, from, slots)
    }

    /// All rows as they lie, lent. It is refused only when out of memory.
    pub(crate) fn rows_unordered<'a>(
        &'a self,
        alloc: Global,
        slots: &'a Slots,
    ) -> Result<Vec<RowRef<'a>>, AllocError>
        requires { All (λ e. IsSome (file_by (files_of (slots_of slots.now)) e.1)) (finmap.entries self.now) }
        ensures { IfOk result (λ lent.
            IsPermutation (map (name_row (files_of (slots_of slots.now))) (finmap.entries self.now)) lent.items) }
    {
        let room = Vec::with_capacity(alloc, self.table.len() + self.others.len())?;
        let lent = with_rows(room, &self.table, slots)?;
        with_others(lent, &self.others, slots)
    }
}
