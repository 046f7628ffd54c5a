//! The names in a folder.

use std::alloc::Global;
use std::fs::Files;
use std::io::{self, ErrorKind, Read};

/// So many bytes of names are read at once.
const PIECE: usize = 1 << 15;

// Opens the folder at a path, also where a link to it stands there.
fn opened<F: Files>(files: &F, alloc: Global, path: &str) -> io::Result<F::Dir> {
    if path.ends_with('/') {
        return files.open_dir(path);
    }
    let folder = format!(in alloc; "{path}/")?;
    files.open_dir(folder.as_str())
}

/// The names in the folder at a path, each ended by a NUL, in the order in which the system gives them.
pub fn names_in<F: Files>(files: &F, alloc: Global, path: &str) -> io::Result<Vec<u8>> {
    let mut folder = opened(files, alloc, path)?;
    let mut piece = Vec::new(alloc);
    piece.resize(PIECE, 0)?;
    let mut names = Vec::new(alloc);
    for _ in 0..u64::MAX {
        match folder.read(piece.as_mut_slice()) {
            Ok(0) => break,
            Ok(count) => {
                names.extend_from_slice(piece.as_slice().get(..count).unwrap_or(&[]))?;
            }
            Err(fault) if fault.kind() == ErrorKind::Interrupted => {}
            Err(fault) => return Err(fault),
        }
    }
    Ok(names)
}
