// The names of a store, kept in both ways: worked changes, each way in which a change doesn't fit, and many changes.
ghost use Rattle.std.specs.Prelude.{◌≡◌, IfOk};
ghost use Rattle.md_listing.specs.Readings.{reading_of};

use super::views::{are, cut, path_of, reads, refuses, world_of};
use md_core::{Change, World};
use md_dirs::{Dirs, Path, Place, PlainDirs};
use md_name::Bytes;
use md_view::{Entry, Names, TreeNames, ViewError, reading};
use std::alloc::{AllocError, Global};
use std::process::Abort;

// Files, and behind a mark steps, between bars; behind another mark come those that a copy then takes, which stays as it was before. A step
// is a change, or it says what one is to show: the names of a directory, between blanks; the one message of cur, by its unique name; new of the
// world joined with cur; the order in which cur is read; that many names come; or that names may cross threads.

static NEW_NAME: &str = "%add 0/cur=u:2,S|rename 0/cur=u:2,S 0/cur=u:2,FS|0/cur u:2,FS|0/new|one u";

static TO_CUR: &str = "0/new=a 0/new=c 0/cur=b:2,S%rename 0/new=a 0/cur=a:2,|joined a:2, b:2,S c|\
rename 0/new=c 0/new=d|0/new d|0/cur a:2, b:2,S|remove 0/cur=b:2,S|0/cur a:2,%0/new a c|0/cur b:2,S";

// Each way in which a change doesn't fit new with v and cur with u:2,S of one folder. It changes nothing.
static MISFITS: &str = "0/new=v 0/cur=u:2,S%same|\
misfit add 1/new=a|\
misfit add 0/tmp=a|\
misfit add 0/new=.a|\
misfit add 0/new=:2,|\
misfit add 0/new=u|\
misfit add 0/cur=v:2,|\
misfit rename 0/new=v 1/cur=v:2,|\
misfit rename 0/new=v 0/tmp=v|\
misfit rename 0/new=v 0/cur=.v|\
misfit rename 0/new=v 0/cur=u:2,|\
misfit rename 1/new=v 0/cur=v:2,|\
misfit rename 0/tmp=v 0/cur=v:2,|\
misfit rename 0/cur=v 0/cur=v:2,|\
misfit rename 0/cur=u:2, 0/cur=u:2,F|\
misfit rename 0/new=w 0/cur=w:2,|\
misfit remove 1/cur=u:2,S|\
misfit remove 0/tmp=u:2,S|\
misfit remove 0/new=u:2,S|\
misfit remove 0/cur=u|\
misfit remove 0/cur=.u|\
0/tmp|1/cur";

// The change of a row: its kind, a path, and where that is renamed to. What is added has one byte.
fn change_of(alloc: Global, kind: &str, from: &Path, to: &Path) -> Result<Change, AllocError> {
    let Path { folder, place, .. } = *from;
    let name = Bytes::copied(alloc, from.name.as_slice())?;
    Ok(match kind {
        "add" => Change::Add {
            folder,
            place,
            name,
            size: 1,
        },
        "rename" => Change::Rename {
            folder,
            place,
            name,
            to_folder: to.folder,
            to_place: to.place,
            to_name: Bytes::copied(alloc, to.name.as_slice())?,
        },
        "remove" => Change::Remove {
            folder,
            place,
            name,
        },
        _ => Change::Same,
    })
}

// Whether a change is taken, both ways.
fn takes(names: &mut Names, trees: &mut TreeNames, change: &Change) -> bool {
    names.apply(change).is_ok() && trees.apply(change).is_ok()
}

// Whether the change of a row is taken.
fn applies(
    rt: &impl Abort,
    alloc: Global,
    names: &mut Names,
    trees: &mut TreeNames,
    row: &str,
) -> bool {
    let (kind, paths) = cut(row, ' ');
    let (from, to) = cut(paths, ' ');
    let (from, to) = (path_of(rt, alloc, from), path_of(rt, alloc, to));
    let change = change_of(alloc, kind, &from, &to).expect(rt, "memory");
    takes(names, trees, &change)
}

// Whether a directory has these names, both ways.
fn have(
    rt: &impl Abort,
    alloc: Global,
    names: &Names,
    trees: &TreeNames,
    (directory, wanted): (&str, &str),
) -> bool {
    let Path { folder, place, .. } = path_of(rt, alloc, directory);
    are(names.entries(folder, place), wanted)
        && are(
            &trees.read(alloc, folder, place).expect(rt, "memory"),
            wanted,
        )
}

// The entries of the names of a world are its reading.
fn read_and_named<D: Dirs>(
    alloc: Global,
    world: &World<D>,
    folder: u32,
    place: Place,
) -> Result<(Vec<Entry>, Names), ViewError>
    ensures { IfOk result (λ both. both.0.items ≡ reading_of both.1.names folder place) }
{
    let names = Names::of(alloc, world)?;
    Ok((reading(alloc, world, folder, place)?, names))
}

// Whether this is the entry of a unique name, and its size one byte.
fn is_one_byte(entry: Option<&Entry>, unique: &[u8]) -> bool {
    match entry {
        Some(entry) => entry.unique.as_slice() == unique && entry.size == 1,
        None => false,
    }
}

// Whether cur of folder 0 has this message first, both ways.
fn is_first(alloc: Global, names: &Names, trees: &TreeNames, unique: &[u8]) -> bool {
    let is_named = is_one_byte(names.entries(0, Place::Cur).first(), unique);
    match trees.read(alloc, 0, Place::Cur) {
        Ok(read) => is_named && is_one_byte(read.first(), unique),
        Err(_) => false,
    }
}

// Whether new of a world, read now, and cur as its trees have it are joined to these names.
fn is_joined(
    rt: &impl Abort,
    alloc: Global,
    world: &World<PlainDirs>,
    trees: &TreeNames,
    wanted: &str,
) -> bool {
    let new = reading(alloc, world, 0, Place::New).expect(rt, "new");
    let joined = trees.join_cur(alloc, &new, 0).expect(rt, "memory");
    are(&joined, wanted)
}

// The number in five digits.
fn digits(rt: &impl Abort, alloc: Global, number: u32) -> Bytes {
    let mut name = Bytes::of(Vec::new(alloc));
    for unit in [10_000, 1_000, 100, 10, 1] {
        let digit = (number / unit % 10) as u8;
        name.extend(&[b'0' + digit]).expect(rt, "memory");
    }
    name
}

// Adds ten thousand messages, those of even numbers first.
fn add_many(rt: &impl Abort, alloc: Global, names: &mut Names, trees: &mut TreeNames) {
    for turn in 0..10_000 {
        let number = if turn < 5_000 {
            turn * 2
        } else {
            turn * 2 - 9_999
        };
        let change = Change::Add {
            folder: 0,
            place: Place::New,
            name: digits(rt, alloc, number),
            size: 1,
        };
        assert!(rt; takes(names, trees, &change));
    }
}

// Whether ten thousand names are in their order, both ways.
fn are_many(rt: &impl Abort, alloc: Global, names: &Names, trees: &TreeNames) -> bool {
    let all = names.entries(0, Place::New);
    let read = trees.read(alloc, 0, Place::New).expect(rt, "memory");
    all.len() == 10_000
        && is_one_byte(all.first(), b"00000")
        && is_one_byte(all.last(), b"09999")
        && read.as_slice() == all
}

fn is_shared<T: Send + Sync>(_value: &T) -> bool {
    true
}

fn may_cross(names: &Names, trees: &TreeNames) -> bool {
    match names.entries(0, Place::New).first() {
        Some(entry) => {
            is_shared(names) && is_shared(trees) && is_shared(entry) && entry.size == 1
        }
        None => false,
    }
}

// Whether a step is right.
fn is_right(
    rt: &impl Abort,
    alloc: Global,
    world: &World<PlainDirs>,
    names: &mut Names,
    trees: &mut TreeNames,
    step: &str,
) -> bool {
    let (kind, rest) = cut(step, ' ');
    match kind {
        "add" | "rename" | "remove" | "same" => applies(rt, alloc, names, trees, step),
        "misfit" => {
            applies(rt, alloc, names, trees, rest)
                && have(rt, alloc, names, trees, ("0/new", "v"))
                && have(rt, alloc, names, trees, ("0/cur", "u:2,S"))
        }
        "one" => is_first(alloc, names, trees, rest.as_bytes()),
        "joined" => is_joined(rt, alloc, world, trees, rest),
        "order" => reads(rt, alloc, world, rest) && refuses(alloc, world),
        "many" => {
            add_many(rt, alloc, names, trees);
            are_many(rt, alloc, names, trees)
        }
        "shared" => may_cross(names, trees),
        _ => have(rt, alloc, names, trees, (kind, rest)),
    }
}

// Takes steps. It says which is wrong.
fn take(
    rt: &impl Abort,
    alloc: Global,
    world: &World<PlainDirs>,
    names: &mut Names,
    trees: &mut TreeNames,
    steps: &str,
) {
    for step in steps.split('|') {
        assert!(rt; is_right(rt, alloc, world, names, trees, step), "{step}");
    }
    assert!(rt; names.folders() == 1 && trees.folders() == 1);
}

fn play_in(rt: &impl Abort, alloc: Global, world: &World<PlainDirs>, steps: &str) {
    let (steps, beside) = cut(steps, '%');
    let mut names = Names::of(alloc, world).expect(rt, "memory");
    let mut trees = TreeNames::of(alloc, world).expect(rt, "memory");
    let mut copy = names.again(alloc).expect(rt, "memory");
    let mut copied = trees.again(alloc).expect(rt, "memory");
    take(rt, alloc, world, &mut names, &mut trees, steps);
    take(rt, alloc, world, &mut copy, &mut copied, beside);
}

fn play(rt: &impl Abort, alloc: Global, text: &str) {
    let (files, steps) = cut(text, '%');
    play_in(rt, alloc, &world_of(rt, alloc, files), steps);
}

#[test]
fn a_reading_is_in_order_of_unique_names(rt: HostRuntime) {
    play(
        &rt,
        rt.alloc(),
        "0/cur=a:2,S 0/cur=a! 0/tmp=d%order a:2,S a!",
    );
}

#[test]
fn names_follow_their_changes(rt: HostRuntime) {
    play(&rt, rt.alloc(), NEW_NAME);
    play(&rt, rt.alloc(), TO_CUR);
    play(&rt, rt.alloc(), MISFITS);
}

#[test]
fn many_names_come_into_their_order(rt: HostRuntime) {
    play(&rt, rt.alloc(), "%many");
}

#[test]
fn names_may_cross_threads(rt: HostRuntime) {
    play(&rt, rt.alloc(), "0/new=v%shared");
}
