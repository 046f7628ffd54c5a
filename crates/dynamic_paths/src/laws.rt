// Laws of leaf texts, over the definitions alone.

ghost use Rattle.std.specs.Prelude.{◌≡◌, ◌<◌, ◌^◌, ◌&&◌, ℕ, List, [], length, nat_eq};
ghost use Rattle.std.specs.List.{starts_with};
ghost use Rattle.std.specs.Str.{bytes_eq};
ghost use Rattle.dynamic_paths.specs.LeafTexts.{leaf_text};

/// What leaf texts say of their leaves, where the paths are shorter than 2^64 bytes, as all are.
pub fn leaf_text_laws()
    // Two different leaves have different leaf texts.
    ensures apart { (path text other words : List ℕ) → length path < 2 ^ 64 → length other < 2 ^ 64 →
        leaf_text path text ≡ leaf_text other words → (path ≡ other) × (text ≡ words) }
    // A leaf text begins with that of a path and a front just where it is of that path and its text begins with the front.
    ensures prefix { (path front other text : List ℕ) → length path < 2 ^ 64 → length other < 2 ^ 64 →
        starts_with nat_eq (leaf_text other text) (leaf_text path front) ≡ (bytes_eq path other && starts_with nat_eq text front) }
    // It begins with that of a path and the empty text just where it is of that path.
    ensures presence { (path other text : List ℕ) → length path < 2 ^ 64 → length other < 2 ^ 64 →
        starts_with nat_eq (leaf_text other text) (leaf_text path []) ≡ bytes_eq path other }
{}
