//! The law of walks. The function does nothing: its contract is the law.
ghost use Rattle.std.specs.Prelude.{◌≡◌, ◌≢◌, ◌↔◌, ℕ, suc, true};
ghost use Rattle.raw_grid.specs.declared.parts.Dir.{Dir};
ghost use Rattle.raw_route.specs.Hauls.{Haulage, Place, place_of};
ghost use Rattle.raw_route.specs.Tree.{passes, leaves, entered, in_tree};
ghost use Rattle.raw_walks.specs.Walks.{heading, beyond, walked, IsOn, IsOnTree};

/// What the tree of a haul has to do with its walks.
pub fn law_walks()
    // A walk comes to its target.
    ensures arrives { (from to : Place) → IsOn from to to }
    // It passes the places that it comes to, and no others,
    ensures passes { (from to at : Place) → (passes from to at ≡ true) ↔ IsOn from to at }
    // leaves each of them for the next one, and its target for the tile there,
    ensures leaves { (dir : Dir) (from to at : Place) →
        (leaves dir from to at ≡ true) ↔ (IsOn from to at × (dir ≡ heading at to)) }
    // and enters each from the one before it, and its origin from the tile there.
    ensures entered { (from to : Place) (k : ℕ) → walked from to k ≢ to →
        beyond (entered from (walked from to (suc k))) (walked from to (suc k)) ≡ walked from to k }
    ensures begins { (from : Place) → entered from from ≡ Dir.P }
    // A tree passes what the walks to its targets pass.
    ensures tree { (cols : ℕ) (haul : Haulage) (tile : ℕ) → (in_tree cols haul tile ≡ true) ↔ IsOnTree cols haul tile }
{}
