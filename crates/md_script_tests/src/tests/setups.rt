//! What scripts set up for another to run.

use md_script::image;
use std::alloc::Global;

// Whether a script sets this up.
fn is_set_up(alloc: Global, script: &[u8], text: &[u8]) -> bool {
    match image(alloc, script, true) {
        Ok(setup) => match format!(in alloc; "{setup:?}") {
            Ok(written) => written.as_bytes() == text,
            Err(_) => false,
        },
        Err(_) => false,
    }
}

#[test]
fn a_setup_has_what_the_lines_name(rt: HostRuntime) {
    let script =
        b"folder i\nfolder j\nfile i new u:2,S 7 a b\\n\n# none\njob clean i\njob flag j u SF - 3\nfile j tmp x 9";
    let setup = b"Setup { folders: [[105], [106]], files: [\
ImageFile { path: Path { folder: 0, place: New, name: [117, 58, 50, 44, 83] }, bytes: Bytes { items: [97, 32, 98, 10] }, stamp: 7 }, \
ImageFile { path: Path { folder: 1, place: Tmp, name: [120] }, bytes: Bytes { items: [] }, stamp: 9 }], calls: [\
Clean { folder: 0 }, \
Flag { folder: 1, unique: Bytes { items: [117] }, add: Flags { word: 262176 }, remove: Flags { word: 0 }, tries: 3 }] }";
    assert!(rt; is_set_up(rt.alloc(), script, setup));
}

#[test]
fn the_calls_of_a_setup(rt: HostRuntime) {
    let script =
        b"folder a\nfolder b\njob deliver a u 4 x\njob seen a u S 1\njob move a u b 2\njob copy a u b v 3\njob expunge b u 16\njob clean b";
    let setup = b"Setup { folders: [[97], [98]], files: [], calls: [\
Deliver { folder: 0, unique: Bytes { items: [117] }, body: Bytes { items: [120] }, chunk: 4 }, \
Seen { folder: 0, unique: Bytes { items: [117] }, flags: Flags { word: 262144 }, tries: 1 }, \
Move { folder: 0, unique: Bytes { items: [117] }, to: 1, tries: 2 }, \
Copy { folder: 0, unique: Bytes { items: [117] }, to: 1, fresh: Bytes { items: [118] }, tries: 3 }, \
Expunge { folder: 1, unique: Bytes { items: [117] }, tries: 16 }, \
Clean { folder: 1 }] }";
    assert!(rt; is_set_up(rt.alloc(), script, setup));
}

#[test]
fn a_setup_is_not_checked_beyond_its_words(rt: HostRuntime) {
    let script =
        b"folder i\nfile i new u 0\nfile i new u 0\nfile i cur u 0\njob deliver i .u 0\nfolder j";
    let setup = b"Setup { folders: [[105], [106]], files: [\
ImageFile { path: Path { folder: 0, place: New, name: [117] }, bytes: Bytes { items: [] }, stamp: 0 }, \
ImageFile { path: Path { folder: 0, place: New, name: [117] }, bytes: Bytes { items: [] }, stamp: 0 }, \
ImageFile { path: Path { folder: 0, place: Cur, name: [117] }, bytes: Bytes { items: [] }, stamp: 0 }], calls: [\
Deliver { folder: 0, unique: Bytes { items: [46, 117] }, body: Bytes { items: [] }, chunk: 0 }] }";
    assert!(rt; is_set_up(rt.alloc(), script, setup));
}
