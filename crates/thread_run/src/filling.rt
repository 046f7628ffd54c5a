//! Lists with room for what comes.

ghost use Rattle.std.specs.Prelude.{◌≡◌, ◌+◌, ◌<◌, ◌≤◌, ◌++◌, ◌∷◌, [], false, vec_capacity, vec_len};

/// Puts it behind the others, for which there is room.
pub(crate) fn push_within<T: Drop>(all: &mut Vec<T>, one: T)
    requires { vec_len all.old < vec_capacity all.old }
    ensures items { all.new.items ≡ all.old.items ++ one ∷ [] }
    ensures room { vec_capacity all.old ≤ vec_capacity all.new }
{
    match all.push(one) {
        Ok(()) => {}
        Err(_) => unreachable!(),
    }
}

/// Puts more behind the others, for which there is room.
pub(crate) fn append_within<T: Drop>(all: &mut Vec<T>, more: Vec<T>)
    requires { vec_len all.old + vec_len more ≤ vec_capacity all.old }
    ensures items { all.new.items ≡ all.old.items ++ more.items }
    ensures room { vec_capacity all.old ≤ vec_capacity all.new }
{
    let mut more = more;
    match all.append(&mut more) {
        Ok(()) => {}
        Err(_) => unreachable!(),
    }
}

/// Whether one of the two holds.
pub(crate) fn either(one: bool, other: bool) -> bool
    ensures { result ≡ false → (one ≡ false) × (other ≡ false) }
{
    one || other
}
