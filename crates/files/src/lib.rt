// Files that are written whole or not at all, and read up to a length. What a disk does no contract can say.
#![tactic(auto)]

use std::fs::File;
use std::io::{Read, Write};
use std::path::Path;
use std::{fs, io};

// Writes a file beside its place, under its name with `.new` behind it, and renames it once the disk has it: what stood at its place is there until then.
pub fn write_whole(rt: &HostRuntime, name: &str, bytes: &[u8]) -> io::Result<()> {
    let beside = format!(in rt.alloc(); "{name}.new")?;
    if let Err(e) = write_synced(rt, beside.as_str(), bytes) {
        let _ = fs::remove_file(rt, beside.as_str());
        return Err(e);
    }
    fs::rename(rt, beside.as_str(), name)?;
    sync_folder(rt, name)
}

fn write_synced(rt: &HostRuntime, name: &str, bytes: &[u8]) -> io::Result<()> {
    let mut file = File::create(rt, name)?;
    file.write_all(bytes)?;
    file.sync_all()
}

// Has the disk know the name of a file: the folder that it stands in.
fn sync_folder(rt: &HostRuntime, name: &str) -> io::Result<()> {
    let path = Path::new(name);
    let folder = match path.parent() {
        Some(folder) if !folder.as_str().is_empty() => folder,
        _ => Path::new("."),
    };
    let folder = File::open(rt, folder)?;
    folder.sync_all()
}

// What a file holds, up to so many bytes.
pub fn read_up_to(rt: &HostRuntime, name: &str, most: u64) -> io::Result<Vec<u8>> {
    let mut bytes = Vec::new(rt.alloc());
    let file = File::open(rt, name)?;
    file.take(most).read_to_end(&mut bytes)?;
    Ok(bytes)
}
