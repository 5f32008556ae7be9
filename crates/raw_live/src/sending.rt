//! What sinks have taken out is handed on.
ghost use Rattle.std.specs.Prelude.{◌≡◌, ◌≤◌, drop, length, map, slice_index, Some, OnOk, IfOk};
ghost use Rattle.raw_processor.specs.Processor.{local_of};
ghost use Rattle.raw_live.specs.Engine.{got_from, PutsTo, PutsItems, AreNoMore, AreAll};
ghost use Rattle.raw_live.specs.Due.{words_behind};
ghost use Rattle.raw_model.specs.Parts.{got_of};

use raw_processor::Processor;
use raw_queue::{Item, Sender};
use std::alloc::AllocError;
use std::sync::Wait;

// Puts the words for this port.
fn put_words<R: Wait>(
    rt: &R,
    to: &mut Sender<'_>,
    port: u32,
    words: &[u32],
) -> Result<(), AllocError>
    ensures queue { to.new.queue ≡ to.old.queue }
    ensures items { PutsTo port words.now to.old.items to.new.items result }
{
    for word in words {
        let item = Item::Word { port, word: *word };
        if let Err(memory) = to.put(rt, item) {
            return Err(memory);
        }
    }
    Ok(())
}

// Puts what a sink has taken out behind so many words, and says how many it has taken out in all.
fn put_new<R: Wait>(
    rt: &R,
    to: &mut Sender<'_>,
    port: u32,
    processor: &Processor,
    sent: usize,
) -> Result<usize, AllocError>
    requires sent { sent ≤ length (got_of (Some (local_of processor.now))) }
    ensures queue { to.new.queue ≡ to.old.queue }
    ensures items { PutsTo port (drop sent (got_of (Some (local_of processor.now)))) to.old.items to.new.items result }
    ensures count { IfOk result (λ n. n ≡ length (got_of (Some (local_of processor.now)))) }
{
    match processor {
        Processor::Sink(sink) => {
            if let Err(memory) = put_words(rt, to, port, &sink.got[sent..]) {
                return Err(memory);
            }
            Ok(sink.got.len())
        }
        _ => Ok(0),
    }
}

// Puts what each sink has taken out and was not handed on.
pub(crate) fn put_all_new<R: Wait>(
    rt: &R,
    to: &mut Sender<'_>,
    procs: u32,
    processors: &[Processor],
    sent: &mut Vec<usize>,
) -> Result<(), AllocError>
    requires each { (procs ≡ length processors.now) × (length sent.old.items ≡ length processors.now) }
    requires sent { AreNoMore sent.old.items (map local_of processors.now) }
    ensures queue { to.new.queue ≡ to.old.queue }
    ensures each { length sent.new.items ≡ length processors.now }
    ensures items { PutsItems
        (words_behind procs (λ p. slice_index sent.old.items p) (got_from (map local_of processors.now)))
        to.old.items to.new.items result }
    ensures sent { OnOk result (AreAll sent.new.items (map local_of processors.now)) }
{
    for p in 0..procs {
        let i = p as usize;
        match put_new(rt, to, p, &processors[i], sent[i]) {
            Ok(count) => sent[i] = count,
            Err(memory) => return Err(memory),
        }
    }
    Ok(())
}
