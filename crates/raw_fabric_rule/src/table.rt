//! The rule of the table, and the steps at it.
//!
//! A look teaches all processors of the pass. A step at the table speaks of the word's number and the seat's view, not
//! of the processor for whose sake it was taken. So each load of a status word renews the seen count of every end, of
//! all processors of the pass, that leads to the processor whose word it is.
//!
//! Each step is one store, also where the status word stays as it is. An instruction that names no network raises no
//! count, so a load of the word would do: after it the rule holds as well. A store that is seen by all threads in one
//! order is a locked instruction of the host, and no other is there in the kit. Where 64 tiles compute by themselves it
//! takes half of a worker's time. But that each step takes effect with one store of its own status word is what this
//! program is known by, and of time nothing is claimed. What binds `commit` to the store is its clause and the form of
//! the call. Its seat has to know afterwards what it knows after the step (`seat`), and that changes at atomic steps of
//! the table alone, under the rule. A load leaves the words as they are. The rule allows it in place of the store only
//! where the status word already packs the counts after the step. `commit` is not handed the word that stands, and may
//! not look for it, since a look would show in what the seat knows. A wrong body that loads is refused
//! (`commit_loads_and_does_not_store`). And `table.rt` alone names kinds of steps at the table, so no other crate has a
//! step to take there.
ghost use Rattle.std.specs.Prelude.{◌≡◌, ℕ, ◌^◌, ◌<◌, List, [], ◌∷◌};
ghost use Rattle.raw_fabric_rule.specs.ByEnds.{procs};
ghost use Rattle.raw_fabric_rule.specs.Views.{Hold, Part};
ghost use Rattle.raw_fabric_rule.specs.Word.{status_at, data_at};
ghost use Rattle.raw_fabric_rule.specs.Plays.{looked, fetched, staged, fired, HasHold, LookTells, see, rest_of, first_of, both_of};
ghost use Rattle.raw_fabric_rule.specs.Conditions.{MayFetch, MayStage, MayFire};
ghost use Rattle.raw_fabric_rule.specs.Commit.{IsCommitted};
ghost use Rattle.raw_fabric_rule.specs.Seats.{IsSeatWith};

use crate::layout::{data_at, status_at};
use crate::view::{PassView, Start};
use atomic_table::{Join, Play, Seat, Shared, Split, TableRule};

/// The rule: a state of the machine stands, to which a lawful list leads from the opened one.
pub struct InOrder;

impl<'s> TableRule<(), PassView, Start<'s>> for InOrder {
    ghost use Rattle.raw_fabric_rule.specs.Rule.{Rule};
    ghost use Rattle.raw_fabric_rule.specs.Opening.{first_view};

    ghost holds = { Rule };

    ghost first = { first_view };
}

struct Looks;

impl Play<(), PassView> for Looks {
    ghost use Rattle.raw_fabric_rule.specs.Plays.{Looked};

    ghost then = { Looked };
}

struct Fetches;

impl Play<(), PassView> for Fetches {
    ghost use Rattle.raw_fabric_rule.specs.Plays.{Fetched};

    ghost then = { Fetched };
}

struct Stages;

impl Play<(), PassView> for Stages {
    ghost use Rattle.raw_fabric_rule.specs.Plays.{Staged};

    ghost then = { Staged };
}

struct Fires;

impl Play<(), PassView> for Fires {
    ghost use Rattle.raw_fabric_rule.specs.Plays.{Fired};

    ghost then = { Fired };
}

/// The words of a fabric.
pub type Words<'s> = Shared<(), PassView, Start<'s>, InOrder>;

/// The seat of a pass.
pub type PassSeat = Seat<(), PassView>;

/// Loads the status word of processor `q`.
pub fn look(words: &Words<'_>, seat: &mut PassSeat, q: u32) -> u64
    requires table { seat.old.table_id ≡ words.now.table_id }
    requires within { status_at q < words.now.table_id.words }
    ensures seat { IsSeatWith (looked q result seat.old.me.0) seat.old seat.new }
    ensures tells { (p : ℕ) (u : Hold) (h : HasHold seat.old.me.0 p u) →
        LookTells h.part.about seat.old.me.0 p q result u (see q result h.part.about p u) }
{
    let at = status_at(q);
    words.load::<Looks>(seat, at)
}

/// Loads data word `k` of a wire, where the grid has so many processors.
pub fn fetch(words: &Words<'_>, seat: &mut PassSeat, processors: u32, wire: u32, k: u32) -> u64
    requires table { seat.old.table_id ≡ words.now.table_id }
    requires within { data_at processors wire k < words.now.table_id.words }
    requires processors { processors ≡ procs words.now.key.set }
    requires may { MayFetch words.now.key seat.old.me.0 wire k }
    ensures seat { IsSeatWith (fetched (data_at processors wire k) result seat.old.me.0) seat.old seat.new }
    ensures small { result < 2 ^ 32 }
{
    let at = data_at(processors, wire, k);
    words.load::<Fetches>(seat, at)
}

/// Stores a value to data word `k` of a wire, where the grid has so many processors.
pub fn stage(words: &Words<'_>, seat: &mut PassSeat, processors: u32, wire: u32, k: u32, value: u64)
    requires table { seat.old.table_id ≡ words.now.table_id }
    requires within { data_at processors wire k < words.now.table_id.words }
    requires processors { processors ≡ procs words.now.key.set }
    requires may { MayStage words.now.key seat.old.me.0 wire k value }
    ensures seat { IsSeatWith (staged (data_at processors wire k) value seat.old.me.0) seat.old seat.new }
{
    let at = data_at(processors, wire, k);
    words.store::<Stages>(seat, at, value);
}

/// Stores the status word of processor `p`.
pub fn commit(words: &Words<'_>, seat: &mut PassSeat, p: u32, word: u64)
    requires table { seat.old.table_id ≡ words.now.table_id }
    requires within { status_at p < words.now.table_id.words }
    requires may { MayFire words.now.key seat.old.me.0 p word }
    ensures seat { IsSeatWith (fired p seat.old.me.0) seat.old seat.new }
    ensures committed { IsCommitted words.now.key p word seat.old.me.0 }
{
    let at = status_at(p);
    words.store::<Fires>(seat, at, word);
}

struct GiveFirst;

impl Split<PassView> for GiveFirst {
    ghost left = { rest_of };

    ghost right = { first_of };
}

struct TakeAll;

impl Join<PassView> for TakeAll {
    ghost use Rattle.raw_fabric_rule.specs.Views.{spent_view};

    ghost both = { both_of };

    ghost spent = { spent_view };
}

/// Splits off a seat that takes the first part.
pub fn split(words: &Words<'_>, seat: &mut PassSeat) -> PassSeat
    requires table { seat.old.table_id ≡ words.now.table_id }
    requires words { 0 < words.now.table_id.words }
    requires some { (y : Part) × (ys : List Part) × (seat.old.me.0.parts ≡ y ∷ ys) }
    ensures seat { IsSeatWith (rest_of seat.old.me.0) seat.old seat.new }
    ensures table { result.table_id ≡ seat.old.table_id }
    ensures right { result.me ≡ (first_of seat.old.me.0, []) }
{
    words.split_seat::<GiveFirst>(seat)
}

/// Joins a seat into another: it gives all its parts.
pub fn join(words: &Words<'_>, seat: &mut PassSeat, other: PassSeat)
    requires table { seat.old.table_id ≡ words.now.table_id }
    requires other { other.table_id ≡ words.now.table_id }
    requires no_slots { other.me.1 ≡ [] }
    requires words { 0 < words.now.table_id.words }
    ensures seat { IsSeatWith (both_of seat.old.me.0 other.me.0) seat.old seat.new }
{
    words.join_seat::<TakeAll>(seat, other);
}
