//! The objects that stood on a disk, each with its bytes.

use crate::ground::{Ground, Object};
use crate::wrong::Wrong;
use object_store::Key;
use std::alloc::Global;

// An object that stood.
#[derive(Drop)]
struct Seen {
    object: Object,
    // It was made by a call that answered no fault, so that no loss of power takes it.
    is_kept: bool,
}

/// The objects that stood at some moment.
#[derive(Drop)]
pub struct Book {
    alloc: Global,
    seen: Vec<Seen>,
}

// The bytes of a path.
fn bytes_of<'a>(objects: &'a [Object], path: &str) -> Option<&'a [u8]> {
    for object in objects {
        if object.path.as_str() == path {
            return Some(object.bytes.as_slice());
        }
    }
    None
}

impl Book {
    pub fn vacant(alloc: Global) -> Book {
        Book {
            alloc,
            seen: Vec::new(alloc),
        }
    }

    fn has(&self, path: &str) -> bool {
        self.seen.iter().any(|one| one.object.path.as_str() == path)
    }

    // Each object that stood before stands, with its bytes.
    fn check(&self, objects: &[Object]) -> Result<(), Wrong> {
        for one in self.seen.as_slice() {
            let path = one.object.path.as_str();
            match bytes_of(objects, path) {
                Some(bytes) if bytes == one.object.bytes.as_slice() => {}
                Some(_) => return Err(Wrong::seen(self.alloc, path, "changed")),
                None => return Err(Wrong::seen(self.alloc, path, "is gone")),
            }
        }
        Ok(())
    }

    /// Looks at what stands: each object that stood before has its bytes. Those that are new were made by a call that answered
    /// no fault, or may be lost with the power.
    pub fn look(&mut self, ground: &Ground, is_kept: bool) -> Result<(), Wrong> {
        let objects = ground.objects()?;
        self.check(objects.as_slice())?;
        for object in objects {
            let path = object.path.as_str();
            if Key::from_text(path).is_ok() && !self.has(path) {
                self.seen.push(Seen { object, is_kept })?;
            }
        }
        Ok(())
    }

    /// Forgets what was lost with the power, which is none of what is kept.
    pub fn forget_lost(&mut self, ground: &Ground) -> Result<(), Wrong> {
        let objects = ground.objects()?;
        self.seen.retain(|one| {
            one.is_kept || bytes_of(objects.as_slice(), one.object.path.as_str()).is_some()
        });
        self.check(objects.as_slice())
    }
}

/// A file that a writer left beside the objects, if there is one.
pub fn left_beside(alloc: Global, ground: &Ground) -> Result<(), Wrong> {
    for object in ground.objects()? {
        if object.path.ends_with(".half") {
            return Err(Wrong::seen(alloc, object.path.as_str(), "is left"));
        }
    }
    Ok(())
}
