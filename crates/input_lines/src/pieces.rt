//! Pieces of a line.

ghost use Rattle.std.specs.Prelude.{◌≡◌, ◌≢◌, ◌++◌, ◌∷◌, All, IfSome, IfNone};

/// The first word, up to the first blank, and what stands behind that blank.
pub fn first_word(bytes: &[u8]) -> (&[u8], Option<&[u8]>)
    ensures word { All (λ byte. byte ≢ 32) result.0.now }
    ensures some { IfSome result.1 (λ rest. bytes.now ≡ result.0.now ++ 32 ∷ rest.now) }
    ensures none { IfNone result.1 (bytes.now ≡ result.0.now) }
{
    match bytes.iter().position(|byte| *byte == b' ') {
        None => (bytes, None),
        Some(at) => (&bytes[..at], Some(&bytes[at + 1..])),
    }
}
