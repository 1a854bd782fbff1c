//! Each script of the folder that the program runs in is played over hashed and over plain directories. What it prints, and the refusal that
//! it ends with, is compared with the text beside it: `NAME.script` with `NAME.out`. Then the same is done with the rows of `NAME.rows`: a
//! script, a line `>`, and what it prints. Between rows is a line `%`.
use crate::files::read;
use md_dirs::{HashSeed, IndexDirs, PlainDirs};
use md_script::{Storage, transcript_over};
use std::{fs, io};

/// Plays a script, and says whether it prints what it should.
pub(crate) fn play_script(rt: &HostRuntime, name: &str) -> io::Result<()> {
    let verdict = if is_as_expected(rt, name)? {
        "as expected"
    } else {
        "DIFFERS"
    };
    println!(rt; "{name}: {verdict}")
}

fn is_as_expected(rt: &HostRuntime, name: &str) -> io::Result<bool> {
    let script = read(rt, name, ".script")?;
    prints(rt, &script, &read(rt, name, ".out")?)
}

/// Plays the rows of a file, and says how many print what they should, and which do not.
pub(crate) fn play_rows(rt: &HostRuntime, name: &str) -> io::Result<()> {
    let file = format!(in rt.alloc(); "{name}.rows")?;
    let rows = fs::read_to_string(rt, file.as_str())?;
    let count = count_expected(rt, name, rows.as_str())?;
    println!(rt; "{name}: {count} rows as expected")
}

fn count_expected(rt: &HostRuntime, name: &str, rows: &str) -> io::Result<u64> {
    let mut count = 0u64;
    for row in rows.split("%\n") {
        if is_row_as_expected(rt, row)? {
            count = count.saturating_add(1);
        } else {
            println!(rt; "{name}: DIFFERS\n{row}")?;
        }
    }
    Ok(count)
}

fn is_row_as_expected(rt: &HostRuntime, row: &str) -> io::Result<bool> {
    match row.split_once(">\n") {
        Some((script, expected)) => prints(rt, script.as_bytes(), expected.as_bytes()),
        None => Ok(false),
    }
}

// Whether a script prints this over both kinds of directories.
fn prints(rt: &HostRuntime, script: &[u8], expected: &[u8]) -> io::Result<bool> {
    let is_hashed = prints_over::<IndexDirs>(rt, script, expected)?;
    let is_plain = prints_over::<PlainDirs>(rt, script, expected)?;
    Ok(is_hashed && is_plain)
}

fn prints_over<D: Storage>(rt: &HostRuntime, script: &[u8], expected: &[u8]) -> io::Result<bool> {
    let printed = transcript_over::<D>(rt.alloc(), HashSeed::fixed(), script)?;
    let mut text = printed.text;
    if let Some(refusal) = printed.refusal {
        let line = format!(in rt.alloc(); "{refusal}\n")?;
        text.extend_from_slice(line.as_bytes())?;
    }
    Ok(text.as_slice() == expected)
}
