//! The laws of items. Each function does nothing of its own: its contract is the law.
ghost use Rattle.std.specs.Prelude.{◌≡◌, ℕ, ◌^◌, ◌<◌, true, false, List, [], ◌++◌};
ghost use Rattle.raw_network.specs.Laws.{IsPrefix};
ghost use Rattle.raw_model.specs.Program.{ProgramSet, IsSet};
ghost use Rattle.raw_model.specs.Rest.{end, IsRun};
ghost use Rattle.raw_queue.specs.declared.item.Item.{Item};
ghost use Rattle.raw_live_text.specs.Feeding.{BeginsItems};
ghost use Rattle.raw_live.specs.Engine.{got_at, with_items, AreSets};
ghost use Rattle.raw_live.specs.Due.{rest_of, live_items};
ghost use Rattle.raw_live.specs.Items.{words_at, has_end, got_text};
ghost use Rattle.raw_model.specs.declared.ending.Ending.{Ending};
ghost use Rattle.raw_live.specs.Ending.{rest_text};
ghost use Rattle.raw_live.specs.Gots.{gots, AreSmall};

/// What was taken of a queue is a prefix of what was put there.
pub fn law_taken()
    // So the lines of what was taken begin those of what was put,
    ensures front { (put taken rest : List Item) → put ≡ taken ++ rest → IsPrefix (got_text taken) (got_text put) }
    // and are all of them where the end was taken.
    ensures whole { (put taken rest : List Item) → put ≡ taken ++ rest → has_end taken ≡ true →
        got_text put ≡ got_text taken }
{}

/// What comes out of a set that is fed words, by what its sinks have at rest.
pub fn law_due()
    // Each lawful list of steps that comes to rest ends where the text says.
    ensures rest { (set : ProgramSet) (h : List ℕ) → IsSet set → IsRun set h → end set h ≡ rest_of set }
    // All that a sink has at the rest of the set with the words comes out, in order, and nothing else.
    ensures says { (set : ProgramSet) (words : List Item) (p : ℕ) → AreSets set words →
        words_at p (live_items set words) ≡ got_at (rest_of (with_items set words)) p }
    ensures small { (set : ProgramSet) (words : List Item) → AreSets set words → AreSmall (live_items set words) }
    // What comes out of a front of the words comes first.
    ensures front { (set : ProgramSet) (front back : List Item) → has_end front ≡ false →
        BeginsItems (live_items set front) (live_items set (front ++ back)) }
{}

/// What a text says of the words that a sink received, by its whole lines `got P w`.
pub fn law_gots()
    // The lines of items say the words of the items for each port, and what stands behind them is read by itself.
    ensures items { (port : ℕ) (items : List Item) (rest : List ℕ) → port < 2 ^ 32 → AreSmall items →
        gots (got_text items ++ rest) port ≡ words_at port items ++ gots rest port }
    // The last line says nothing of words.
    ensures rest { (port : ℕ) (ending : Ending) → gots (rest_text ending) port ≡ [] }
    // A front of a text says a front of that; a line that was cut says nothing.
    ensures front { (port : ℕ) (front rest : List ℕ) → IsPrefix (gots front port) (gots (front ++ rest) port) }
{}
