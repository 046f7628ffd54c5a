// What a store in memory keeps: the objects, and the creates that failed and may still land.
ghost use Rattle.std.specs.Prelude.{◌≡◌, ◌≤◌, ◌<◌, ◌+◌, Option, None, Some, List, ℕ, [], ◌∷◌, ◌++◌, OnOk, OnErr, IsErrOf, slice_index_or, vec_len};
ghost use Rattle.std.specs.FinMap as finmap;

use crate::objects::Object;
use crate::shelf::Shelf;
use crate::{CreateError, Key};
use byte_fields::Bytes;
use std::alloc::{AllocError, Global};

/// A create that failed.
#[derive(Drop)]
pub struct LateObject {
    pub object: Object,
    /// The number of the call at whose beginning it lands, where it ever does.
    pub call: Option<u64>,
}

impl LateObject {
    ghost use Rattle.object_store.specs.Late.{is_due};

    fn is_due(&self, made: u64) -> bool
        ensures { result ≡ is_due made self.now }
    {
        match self.call {
            None => false,
            Some(call) => call <= made,
        }
    }
}

/// The objects, and the late creates in the order in which they failed. There is room for each of them to land.
#[derive(Drop)]
pub struct Kept {
    pub shelf: Shelf,
    pub late: Vec<LateObject>,
    ghost room: { vec_len late ≤ shelf.spare },
}

impl Kept {
    ghost use Rattle.std.specs.Prelude.{IsSome};
    ghost use Rattle.object_store.specs.Store.{HasLanded, landed, with_object, with_late, without_object, Creates};
    ghost use Rattle.object_store.specs.Kept.{state_of};
    ghost use Rattle.object_store.specs.Late.{held_of, landed_at, begun, with_new};
    ghost use Rattle.object_store.specs.declared.kept.LateObject.{LateObject};

    pub fn vacant(alloc: Global) -> Kept
        ensures objects { (state_of result).objects ≡ finmap.empty }
        ensures late { (state_of result).late ≡ [] }
    {
        Kept {
            shelf: Shelf::vacant(alloc),
            late: Vec::new(alloc),
        }
    }

    // The late create at a place leaves the list: it becomes an object where its key is absent.
    fn land_one(&mut self, at: usize)
        requires { at < vec_len self.old.late }
        ensures lands { state_of self.new ≡ landed (at ∷ []) (state_of self.old) }
        ensures held { (l : LateObject) → held_of self.new ≡ landed_at at (slice_index_or self.old.late.items at l) (held_of self.old) }
        ensures less { vec_len self.new.late + 1 ≡ vec_len self.old.late }
    {
        let LateObject { object, call: _ } = self.late.remove(at);
        match self.shelf.find(&object.key) {
            Some(_) => {}
            None => self.shelf.put(object),
        }
    }

    /// What is due lands as the call with this number begins.
    pub fn land(&mut self, made: u64)
        ensures lands { HasLanded (state_of self.old) (state_of self.new) }
        ensures due { held_of self.new ≡ begun made (held_of self.old) }
    {
        let mut at = 0;
        while at < self.late.len() {
            if self.late[at].is_due(made) {
                self.land_one(at);
            } else {
                at += 1;
            }
        }
    }

    // Makes room for one more object, whether it stands or is late.
    fn reserve(&mut self) -> Result<(), AllocError>
        ensures state { state_of self.new ≡ state_of self.old }
        ensures late { self.new.late.items ≡ self.old.late.items }
        ensures room { OnOk result (vec_len self.new.late < self.new.shelf.spare) }
    {
        self.shelf.reserve(self.late.len() + 1)
    }

    fn put(&mut self, object: Object)
        requires absent { finmap.get self.old.shelf.objects object.key ≡ None }
        requires room { vec_len self.old.late < self.old.shelf.spare }
        ensures state { state_of self.new ≡ with_object (state_of self.old) object.key object.content }
        ensures late { self.new.late.items ≡ self.old.late.items }
    {
        self.shelf.put(object);
    }

    pub fn create(&mut self, alloc: Global, key: &Key, content: &[u8]) -> Result<(), CreateError>
        ensures step { Creates key.now content.now result (state_of self.old) (state_of self.new) }
        ensures late { self.new.late.items ≡ self.old.late.items }
        ensures goes { IsErrOf result CreateError.Failed → ⊥ }
    {
        if let Some(_) = self.shelf.find(key) {
            return Err(CreateError::Exists);
        }
        let content = Bytes::from_slice(alloc, content)?;
        self.reserve()?;
        self.put(Object { key: *key, content });
        Ok(())
    }

    /// Puts an object where its key is absent; one that stands keeps its bytes.
    pub fn put_where_absent(
        &mut self,
        alloc: Global,
        key: &Key,
        content: &[u8],
    ) -> Result<(), AllocError>
        ensures absent { OnOk result (finmap.get (state_of self.old).objects key.now ≡ None → state_of self.new ≡ with_object (state_of self.old) key.now content.now) }
        ensures stands { IsSome (finmap.get (state_of self.old).objects key.now) → state_of self.new ≡ state_of self.old }
        ensures err { OnErr result (state_of self.new ≡ state_of self.old) }
        ensures late { self.new.late.items ≡ self.old.late.items }
    {
        if let None = self.shelf.find(key) {
            let content = Bytes::from_slice(alloc, content)?;
            self.reserve()?;
            self.put(Object { key: *key, content });
        }
        Ok(())
    }

    /// Puts an object among the late creates, and makes the room for its landing first.
    pub fn put_late(
        &mut self,
        alloc: Global,
        key: &Key,
        content: &[u8],
        call: Option<u64>,
    ) -> Result<(), AllocError>
        ensures ok { OnOk result (state_of self.new ≡ with_late (state_of self.old) key.now content.now) }
        ensures err { OnErr result (state_of self.new ≡ state_of self.old) }
        ensures late { OnOk result (self.new.late.items ≡ self.old.late.items ++ record { object = record { key = key.now; content = content.now }; call = call } ∷ []) }
        ensures same { OnErr result (self.new.late.items ≡ self.old.late.items) }
    {
        let content = Bytes::from_slice(alloc, content)?;
        self.reserve()?;
        let object = Object { key: *key, content };
        self.late.push(LateObject { object, call })?;
        Ok(())
    }

    pub fn take_out(&mut self, key: &Key)
        ensures state { state_of self.new ≡ without_object (state_of self.old) key.now }
        ensures late { self.new.late.items ≡ self.old.late.items }
    {
        self.shelf.take_out(key);
    }
}
