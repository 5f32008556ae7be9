//! A law. The function does nothing: its contract is the law.
ghost use Rattle.std.specs.Prelude.{ℕ, List};
ghost use Rattle.raw_command_line.specs.WordOrder.{AreAlike, IsFreeOfOrder, SayTwice, IsNoCommand};

/// The options of a command stand in any order, and none of a kind twice.
#[tactic(auto, using(crate::proofs::WordOrder::free_of_order, crate::proofs::WordOrder::no_command))]
pub fn law_options()
    ensures order { (words others : List (List ℕ)) → AreAlike words others → IsFreeOfOrder words others }
    ensures once { (words : List (List ℕ)) → SayTwice words → IsNoCommand words }
{}
