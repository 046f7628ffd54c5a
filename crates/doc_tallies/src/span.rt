ghost use Rattle.std.specs.Prelude.{◌<◌};

/// From which number on a table has places, and by how many bits more numbers share a place.
#[derive(Clone, Copy)]
pub(crate) struct Span {
    pub least: u64,
    pub shift: u8,
    ghost small: { shift < 64 },
}
