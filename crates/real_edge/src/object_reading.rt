//! Reading the files of objects.

ghost use Rattle.std.specs.Prelude.{◌≤◌, IfOk, IfSome, length};

use crate::disk::Standing;
use crate::faults::{Trouble, tried};
use crate::folder_path::FolderPath;
use byte_fields::Bytes;
use object_store::Piece;
use std::alloc::Global;
use std::fs::{File, Files, OpenFile};
use std::io::{self, ErrorKind, Read, Seek, SeekFrom};

// The plain file at the place's path, open for reading. None where there is none.
fn opened<F: Files>(files: &F, place: &FolderPath) -> Result<Option<F::File>, Trouble> {
    let Standing::PlainFile = place.standing(files)? else {
        return Ok(None);
    };
    match File::open(files, place.path()) {
        Ok(file) => Ok(Some(file)),
        Err(fault) if fault.kind() == ErrorKind::NotFound => Ok(None),
        Err(fault) => tried("opening", Err(fault)),
    }
}

// Fills a buffer with what an open file has from a place on.
fn fill<H: Read + Seek>(file: &mut H, from: u64, buffer: &mut [u8]) -> io::Result<()> {
    if buffer.is_empty() {
        return Ok(());
    }
    if from > 0 {
        file.seek(SeekFrom::Start(from))?;
    }
    file.read_exact(buffer)
}

/// So many bytes of the object at the place's path from a place on, and its whole size. None where no object stands there; fails
/// where the folder does not.
pub fn read_piece<F: Files>(
    files: &F,
    alloc: Global,
    place: &mut FolderPath,
    from: u64,
    len: u64,
) -> Result<Option<Piece>, Trouble>
    ensures { IfOk result (λ found. IfSome found (λ piece. length piece.bytes ≤ len)) }
{
    let Some(mut file) = opened(files, place)? else {
        place.require(files)?;
        return Ok(None);
    };
    let found = tried("looking at", file.metadata())?;
    if !found.is_file() {
        return Ok(None);
    }
    let size = found.len();
    let want = len.min(size.saturating_sub(from));
    let mut bytes = Vec::new(alloc);
    bytes.resize(want as usize, 0)?;
    tried("reading", fill(&mut file, from, bytes.as_mut_slice()))?;
    Ok(Some(Piece {
        bytes: Bytes::from_vec(bytes),
        size,
    }))
}
