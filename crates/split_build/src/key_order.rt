//! Keys in their order.

ghost use Rattle.std.specs.Prelude.{IfOk};
ghost use Rattle.split_build.specs.HeldKeys.{key_bytes};
ghost use Rattle.split_build.specs.KeyGroups.{AreOrdered};

use std::alloc::{AllocError, Global};

/// Each key with its number, in the order of the keys.
pub(crate) fn in_order<'a>(
    alloc: Global,
    keys: &'a [Vec<u8>],
) -> Result<Vec<(&'a [u8], usize)>, AllocError>
    ensures { IfOk result (λ v. AreOrdered (key_bytes keys.now) v.items) }
{
    let mut order = Vec::with_capacity(alloc, keys.len())?;
    let mut number: usize = 0;
    let mut rest = keys;
    while let Some((key, behind)) = rest.split_first() {
        order.push((key.as_slice(), number))?;
        number += 1;
        rest = behind;
    }
    order.sort_unstable();
    Ok(order)
}
