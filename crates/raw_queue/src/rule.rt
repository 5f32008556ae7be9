//! The rule of a queue: what was taken, followed by what the queue holds, is what was put. The types here exist in proofs
//! alone: no value of them is made.
ghost use Rattle.std.specs.Prelude.{◌≡◌, ◌++◌, ◌∷◌, [], true, false};
ghost use Rattle.raw_queue.specs.Views.{view_of, IsInOrder};

use crate::item::Item;
use crate::view::EndView;
use crossbeam_queue::protocol::{Join, Lesson, Outcome, Protocol, Split};

/// Items leave in the order in which they came.
pub struct InOrder;

impl Protocol<Item, EndView> for InOrder {
    ghost holds = { IsInOrder };

    ghost first = { view_of true true [] [] };
}

/// Parts what may put from what may take, and brings them together again.
pub struct TwoEnds;

impl Split<EndView> for TwoEnds {
    ghost left = { λ v. view_of true false v.put [] };

    ghost right = { λ v. view_of false true [] v.taken };
}

impl Join<EndView> for TwoEnds {
    ghost both = { λ v w. view_of true true v.put w.taken };

    ghost spent = { view_of false false [] [] };
}

/// One item more was put.
pub struct Put;

impl Outcome<Item, EndView> for Put {
    ghost then = { λ v x w. w ≡ view_of v.puts v.takes (v.put ++ x ∷ []) v.taken };
}

/// One item more was taken; or the queue held none, which an end that knows both lists learns of them.
pub struct Take;

impl Outcome<Item, EndView> for Take {
    ghost then = { λ v x w. w ≡ view_of v.puts v.takes v.put (v.taken ++ x ∷ []) };
}

impl Lesson<Item, EndView> for Take {
    ghost fact = { λ v items. v.puts ≡ true → v.put ≡ v.taken ++ items };
}
