//! Worlds that are loaded from files, whose names may have any bytes.
ghost use Rattle.std.specs.Prelude.{◌≡◌, ◌⊎◌, ◌<◌, [], List, Ok, Err, IfOk, MatchResult, length};
ghost use Rattle.md_dirs.specs.declared.image.ImageFile.{ImageFile};
ghost use Rattle.md_script.specs.Sessions.{run_over};
ghost use Rattle.md_script.specs.declared.error.PlayKind.{PlayKind};
ghost use Rattle.md_script.specs.declared.error.PlayKind.TheVariants.{NoMemory};
ghost use Rattle.md_ffi.specs.Files.{file_in, AreFiles, GivesStore, StopsAt};
ghost use Rattle.md_driven.specs.declared.refusal.Refusal.TheVariants.{Kind};

use crate::calls::{cut, eight_at, four_at};
use crate::handle::Handle;
use crate::held::Held;
use crate::seed::seed_of;
use md_dirs::{Bytes, FileName, HashSeed, ImageFile, IndexDirs, Path};
use md_driven::{NO_MEMORY, Refusal, place_of};
use md_script::{PlayKind, open_store};
use std::alloc::Global;

// The file of the first record of bytes, and what follows that.
#[tactic(auto, unfolding(crate::specs::Files::file_in))]
fn read_file(alloc: Global, bytes: &[u8]) -> Result<(ImageFile, &[u8]), Refusal>
    ensures file { MatchResult result
        (λ read. file_in bytes.now ≡ Ok (read.0, read.1.now))
        (λ e. (e ≡ Kind NoMemory) ⊎ (file_in bytes.now ≡ Err e)) }
    ensures shorter { IfOk result (λ read. length read.1.now < length bytes.now) }
{
    let (head, rest) = cut(bytes, 32)?;
    let (name, rest) = cut(rest, eight_at(head, 16))?;
    let (body, rest) = cut(rest, eight_at(head, 24))?;
    let Some(place) = place_of(four_at(head, 4)) else {
        return Err(Refusal::NoPlace);
    };
    let path = Path {
        folder: four_at(head, 0),
        place,
        name: FileName::copied(alloc, name)?,
    };
    let file = ImageFile {
        path,
        bytes: Bytes::copied(alloc, body)?,
        stamp: eight_at(head, 8),
    };
    Ok((file, rest))
}

// The files of records.
#[tactic(auto, using(crate::proofs::Filed::more, crate::proofs::Filed::stops, crate::proofs::Filed::ends))]
fn read_files(alloc: Global, records: &[u8]) -> Result<Vec<ImageFile>, Refusal>
    ensures { MatchResult result
        (λ files. AreFiles files.items records.now [])
        (λ e. (e ≡ Kind NoMemory) ⊎ StopsAt records.now e) }
{
    let mut files = Vec::new(alloc);
    let mut left = records;
    while !left.is_empty() {
        let (file, rest) = match read_file(alloc, left) {
            Ok(read) => read,
            Err(refusal) => return Err(refusal),
        };
        files.push(file)?;
        left = rest;
    }
    Ok(files)
}

// The store over folders and the files of records, which hashes names by a seed.
fn held_of(
    alloc: Global,
    seed: HashSeed,
    folders: u32,
    records: &[u8],
) -> Result<Box<Held>, Refusal>
    ensures { MatchResult result
        (λ held. (files : List ImageFile) × AreFiles files records.now [] × (run_over folders files ≡ Ok held.value.world))
        (λ e. (e ≡ Kind NoMemory) ⊎ StopsAt records.now e
        ⊎ ((files : List ImageFile) × AreFiles files records.now [] × (kind : PlayKind) × (e ≡ Kind kind) × (run_over folders files ≡ Err kind))) }
{
    let files = read_files(alloc, records)?;
    match open_store::<IndexDirs>(alloc, seed, folders, files) {
        Ok(world) => Ok(Box::new(alloc, Held { world }).map_err(|_| NO_MEMORY)?),
        Err(PlayKind::NoMemory) => Err(NO_MEMORY),
        Err(kind) => Err(Refusal::Kind(kind)),
    }
}

/// Opens a handle over folders and the files of records. What the handle held is let go first. A record has, little-endian, its folder and
/// its place in 4 bytes each, the file's stamp in seconds and the lengths of its name and of its bytes in 8 each, and then the name and the
/// bytes. Names are hashed as those of `md_ffi_load`.
///
/// Refused at the first record that is none: `BadRecord` where what is left is no whole one, and `NoPlace`; else `SamePath` where two files
/// have one path or the folder of one isn't there, and then `BadName`, `LongUnique` and `DuplicateUnique`. Out of memory may come in place of
/// any of these. The handle is closed then.
#[unsafe(no_mangle)]
pub extern "C" fn md_ffi_load_files(
    alloc: Global,
    folders: u32,
    records: &[u8],
    random: &[u8],
    handle: &mut Handle,
) -> u32
    ensures { GivesStore folders records.now handle.new.slot.held result }
{
    let _old = handle.take(alloc);
    match held_of(alloc, seed_of(random), folders, records) {
        Ok(held) => {
            handle.hold(held);
            0
        }
        Err(refusal) => refusal.number(),
    }
}
