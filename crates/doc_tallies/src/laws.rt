//! What merging the hits of parts gives, and when shares of them suffice.

ghost use Rattle.std.specs.Prelude.{◌≡◌, ◌≤◌, ◌++◌, List, ℕ, Option, length, not};
ghost use Rattle.std.specs.List.{AllZip, filter};
ghost use Rattle.split_bundle.specs.declared.placed.Placed.{Placed};
ghost use Rattle.doc_tallies.specs.declared.hit_order.HitOrder.{HitOrder};
ghost use Rattle.doc_tallies.specs.Orders.{comes_before, firsts};
ghost use Rattle.doc_tallies.specs.Shares.{IsShare, joined};

/// The firsts of the joined firsts of two lists are those of the joined lists.
pub fn merged_firsts()
    ensures { (wanted : ℕ) (order : Option HitOrder) (xs ys : List Placed) → firsts wanted order (firsts wanted order xs ++ firsts wanted order ys) ≡ firsts wanted order (xs ++ ys) }
{}

/// Where so many of the shares do not stand behind a hit, and each share has all of its list that does not either, the first so many
/// of the shares are those of the lists.
pub fn shares_suffice()
    ensures { (order : Option HitOrder) (wanted : ℕ) (z : Placed) (owns shares : List (List Placed)) → AllZip (IsShare (comes_before order) wanted z) owns shares
        → wanted ≤ length (filter (λ y. not (comes_before order z y)) (joined shares)) → firsts wanted order (joined owns) ≡ firsts wanted order (joined shares) }
{}
