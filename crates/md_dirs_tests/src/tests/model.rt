// Calls on directories and on plain ones beside them, of two folders each: they have to answer by the words of POSIX, and to show the same.
use super::{Call, Kind};
use md_dirs::{Bytes, DirError, Dirs, Path, Place, PlainDirs, Row, RowRef};
use std::alloc::Global;
use std::process::Abort;

const FOLDERS: u32 = 2;

const PLACES: [Place; 3] = [Place::Tmp, Place::New, Place::Cur];

/// The plain directories, how many calls were made on the others, and which of them is to fail: none where that is 0.
#[derive(Drop)]
pub struct Model {
    pub alloc: Global,
    pub plain: PlainDirs,
    pub due: u64,
    pub calls: u64,
}

fn lent(row: &Row) -> Option<RowRef<'_>> {
    Some(RowRef::new(row.name.as_slice(), row.stamp, row.size))
}

/// Whether two rows are the same, or there is none.
pub fn is_same(a: Option<RowRef<'_>>, b: Option<RowRef<'_>>) -> bool {
    match (a, b) {
        (None, None) => true,
        (Some(a), Some(b)) => {
            a.name() == b.name() && a.stamp() == b.stamp() && a.size() == b.size()
        }
        _ => false,
    }
}

impl Model {
    pub fn has(&self, path: &Path) -> bool {
        self.plain
            .read(path.folder, path.place, path.name.as_slice())
            .is_some()
    }

    // What a call has to answer.
    fn wanted(&self, call: Call<'_>) -> Result<(), DirError> {
        let is_folder = call.path.folder < FOLDERS;
        let (is_there, is_ready) = match call.kind {
            Kind::Create => (is_folder, !self.has(call.path)),
            Kind::Append | Kind::Body | Kind::Unlink => (self.has(call.path), true),
            Kind::Link => (
                self.has(call.path) && call.to.folder < FOLDERS,
                !self.has(call.to),
            ),
            Kind::Rename => (self.has(call.path) && call.to.folder < FOLDERS, true),
            Kind::List | Kind::Find => (is_folder, true),
        };
        match (is_there, is_ready) {
            (false, _) => Err(DirError::NotFound),
            (_, false) => Err(DirError::Exists),
            _ => Ok(()),
        }
    }

    // The first row of a directory whose name is a unique name, or it with a colon and more.
    fn first_of(&self, path: &Path, unique: &[u8]) -> Option<RowRef<'_>> {
        for at in 0..self.plain.count(path.folder, path.place) {
            let row = self.plain.row_at(path.folder, path.place, at)?;
            if matches!(row.name().strip_prefix(unique), Some([] | [b':', ..])) {
                return Some(row);
            }
        }
        None
    }

    /// Whether directories show the same row at a position, and the same bytes of it, or neither has it.
    pub fn shows<D: Dirs>(&self, dirs: &D, folder: u32, place: Place, at: usize) -> bool {
        let row = dirs.row_at(folder, place, at);
        let name = match &row {
            Some(row) => row.name(),
            None => b"",
        };
        is_same(row, self.plain.row_at(folder, place, at))
            && dirs.read(folder, place, name) == self.plain.read(folder, place, name)
    }

    /// Whether directories show the same of one directory, its names in order of their bytes.
    pub fn is_alike_in<D: Dirs>(&self, dirs: &D, folder: u32, place: Place) -> bool {
        let mut last: Option<&[u8]> = None;
        for at in 0..self.plain.count(folder, place) {
            let name = match dirs.row_at(folder, place, at) {
                Some(row) => Some(row.name()),
                None => None,
            };
            if last >= name || !self.shows(dirs, folder, place, at) {
                return false;
            }
            last = name;
        }
        dirs.count(folder, place) == self.plain.count(folder, place)
    }

    /// Whether directories show the same in all. It takes no memory.
    pub fn is_alike<D: Dirs>(&self, dirs: &D) -> bool {
        for folder in 0..=FOLDERS {
            for place in PLACES {
                if !self.is_alike_in(dirs, folder, place) {
                    return false;
                }
            }
        }
        dirs.folders() == FOLDERS
    }

    // Lists a directory.
    fn list<D: Dirs>(&self, rt: &impl Abort, dirs: &mut D, path: &Path) -> Result<(), DirError> {
        let rows = dirs.list(path.folder, path.place)?;
        let mut at = 0usize;
        for row in &rows {
            assert!(rt; is_same(lent(row), self.plain.row_at(path.folder, path.place, at)));
            at = at.saturating_add(1);
        }
        assert!(rt; at == self.plain.count(path.folder, path.place));
        Ok(())
    }

    // Looks for a unique name in a directory.
    fn find<D: Dirs>(
        &self,
        rt: &impl Abort,
        dirs: &mut D,
        path: &Path,
        unique: &[u8],
    ) -> Result<(), DirError> {
        let found = dirs.find(path.folder, path.place, unique)?;
        let row = match &found {
            Some(row) => lent(row),
            None => None,
        };
        assert!(rt; is_same(row, self.first_of(path, unique)));
        Ok(())
    }

    // Appends a body, which after a refusal is as it was. It is copied once more where memory was wanting, since that is no call.
    fn append_body<D: Dirs>(
        &self,
        rt: &impl Abort,
        dirs: &mut D,
        call: Call<'_>,
        now: u64,
    ) -> Result<(), DirError> {
        let mut body = match Bytes::copied(self.alloc, call.bytes) {
            Ok(body) => body,
            Err(_) => Bytes::copied(self.alloc, call.bytes)?,
        };
        let answer = dirs.append_body(call.path, &mut body, now);
        assert!(rt; answer.is_ok() || body.as_slice() == call.bytes);
        answer
    }

    // Makes a call on directories. It fails where it is to, and only there.
    fn make<D: Dirs>(
        &mut self,
        rt: &impl Abort,
        dirs: &mut D,
        call: Call<'_>,
        now: u64,
    ) -> Result<(), DirError> {
        self.calls = self.calls.wrapping_add(1);
        let answer = match call.kind {
            Kind::Create => dirs.create(call.path, now),
            Kind::Append => dirs.append(call.path, call.bytes, now),
            Kind::Body => self.append_body(rt, dirs, call, now),
            Kind::Link => dirs.link(call.path, call.to),
            Kind::Rename => dirs.rename(call.path, call.to),
            Kind::Unlink => dirs.unlink(call.path),
            Kind::List => self.list(rt, dirs, call.path),
            Kind::Find => self.find(rt, dirs, call.path, call.bytes),
        };
        let has_failed = answer == Err(DirError::Fault);
        assert!(rt;
            has_failed == (self.calls == self.due),
            "fault at call {now}"
        );
        answer
    }

    // Makes a call on the plain directories, if it changes anything.
    fn follow(&mut self, call: Call<'_>, now: u64) -> Result<(), DirError> {
        match call.kind {
            Kind::Create => self.plain.create(call.path, now),
            Kind::Append | Kind::Body => self.plain.append(call.path, call.bytes, now),
            Kind::Link => self.plain.link(call.path, call.to),
            Kind::Rename => self.plain.rename(call.path, call.to),
            Kind::Unlink => self.plain.unlink(call.path),
            Kind::List | Kind::Find => self.wanted(call),
        }
    }

    /// Makes a call on both, and compares the answers. Where it fails or finds no memory it has changed nothing, and is made once more.
    pub fn play<D: Dirs>(
        &mut self,
        rt: &impl Abort,
        dirs: &mut D,
        call: Call<'_>,
        now: u64,
    ) -> Result<(), DirError> {
        let wanted = self.wanted(call);
        let mut answer = self.make(rt, dirs, call, now);
        for _ in 0..2 {
            if matches!(answer, Err(DirError::Fault | DirError::NoMemory)) {
                assert!(rt; self.is_alike(dirs), "changed at call {now}");
                answer = self.make(rt, dirs, call, now);
            }
        }
        let mut followed = self.follow(call, now);
        if followed == Err(DirError::NoMemory) {
            followed = self.follow(call, now);
        }
        assert!(rt;
            answer == wanted && followed == wanted,
            "answer of call {now}"
        );
        wanted
    }
}
