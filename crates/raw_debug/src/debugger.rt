//! A debugger that follows lines one by one, as they come.
ghost use Rattle.std.specs.Prelude.{◌≡◌, true, None, not, IfOk, OnOk};
ghost use Rattle.raw_io.specs.Writing.{Writes};
ghost use Rattle.raw_model.specs.Program.{ProgramSet};
ghost use Rattle.raw_lines.specs.LabelsOf.{places_in};
ghost use Rattle.raw_debug.specs.Commands.{meaning_of, meant};
ghost use Rattle.raw_debug.specs.Commands.Meaning.{Says};
ghost use Rattle.raw_debug.specs.Script.{Spot, first_spot, leads_to, moved_by, goes_past, is_past, line_text};
ghost use Rattle.raw_debug.specs.Live.{answer_to, spot_behind, line_answer, line_spot};
ghost use Rattle.raw_debug.specs.Debugging.{IsPossible, IsPossibleReading};

use crate::answers::{put_answer, put_echo};
use crate::command::{Command, Reading};
use crate::reading::reading_of;
use crate::tokens::{Tokens, bytes_line, flaw_of};
use crate::trail::Trail;
use raw_grid::ProcId;
use raw_io::{Failed, Sink, put_all};
use raw_lines::TextLabels;
use raw_model::Set;
use std::alloc::{AllocError, Global};
use std::marker::Model;

/// A machine of a set that is led through the serial order by lines, each of which is answered before the next one is known.
///
/// It takes memory only when it is opened.
#[derive(Drop)]
pub struct Debugger<'s> {
    trail: Trail<'s>,
    current: ProcId,
}

impl<'s> Model for Debugger<'s> {
    ghost use Rattle.std.specs.Prelude.{◌<◌};
    ghost use Rattle.raw_grid.specs.Topology.{proc_count};
    ghost use Rattle.raw_debug.specs.Live.{Session};

    ghost Value = { Session };

    ghost view = { λ d. record { set = d.trail.set; spot = record { moment = d.trail.moment; current = d.current } } };

    ghost invariant = { λ d. d.current.0 < proc_count d.trail.set.topo };
}

impl<'s> Debugger<'s> {
    /// A debugger at the start of the serial order, with processor 0.
    pub fn open(alloc: Global, set: &'s Set) -> Result<Debugger<'s>, AllocError>
        ensures { IfOk result (λ d. d ≡ record { set = set.now; spot = first_spot }) }
    {
        Debugger::open_for(alloc, set, usize::MAX)
    }

    /// The same for so many lines at the most.
    pub(crate) fn open_for(
        alloc: Global,
        set: &'s Set,
        lines: usize,
    ) -> Result<Debugger<'s>, AllocError>
        ensures { IfOk result (λ d. d ≡ record { set = set.now; spot = first_spot }) }
    {
        let trail = Trail::open(alloc, set, lines)?;
        // The set is asked for so that it is known to have a processor.
        let _set = trail.machine().set();
        Ok(Debugger {
            trail,
            current: ProcId(0),
        })
    }
}

impl Debugger<'_> {
    /// What a line says.
    pub(crate) fn read<L: Tokens>(&self, labels: &TextLabels<'_>, line: &L) -> Reading
        ensures meaning { meant result (L.tokens line.now)
            ≡ meaning_of (places_in labels.now) self.now.set self.now.spot.current.0 (L.tokens line.now) }
        ensures possible { IsPossibleReading self.now.set self.now.spot.current.0 result }
    {
        let set = self.trail.machine().set();
        reading_of(labels, set, line, self.current)
    }

    // Does what a command says, and says whether it is none that goes past the end.
    fn follow_command<K: Sink>(&mut self, command: Command, out: &mut K) -> Result<bool, Failed>
        requires { IsPossible self.old.set self.old.spot.current.0 command }
        ensures moved { self.new ≡ record { set = self.old.set; spot = moved_by self.old.set self.old.spot (Says command) } }
        ensures answer { IfOk result (λ done. done ≡ not (goes_past self.old.set command)) }
        ensures writes { Writes (K.sight out.old) (K.sight out.new) (line_text self.old.set self.old.spot (Says command)) result }
    {
        let moment = self.trail.moment();
        let done = self.trail.go(self.current, command);
        self.current = command.led_to(self.current);
        if !done {
            self.trail.return_to(moment);
            return put_none(command, out);
        }
        put_answer(&mut self.trail, self.current, command, out)?;
        Ok(true)
    }

    /// Does what a line says that was read so, and says whether it is none that goes past the end.
    pub(crate) fn follow<L: Tokens, K: Sink>(
        &mut self,
        reading: Reading,
        line: &L,
        out: &mut K,
    ) -> Result<bool, Failed>
        requires { IsPossibleReading self.old.set self.old.spot.current.0 reading }
        ensures moved { self.new ≡ record { set = self.old.set; spot = moved_by self.old.set self.old.spot (meant reading (L.tokens line.now)) } }
        ensures answer { IfOk result (λ done. done ≡ not (is_past self.old.set (meant reading (L.tokens line.now)))) }
        ensures writes { Writes (K.sight out.old) (K.sight out.new)
            (line_text self.old.set self.old.spot (meant reading (L.tokens line.now))) result }
    {
        match reading {
            Reading::Says(command) => self.follow_command(command, out),
            Reading::Echoes => put_echo(line, out),
            Reading::Blank | Reading::Outside => Ok(true),
        }
    }

    // Answers a line that was read so. One that is no command and one that goes past the end say so, and leave it where it
    // stands.
    fn answer<L: Tokens, K: Sink>(
        &mut self,
        reading: Reading,
        line: &L,
        out: &mut K,
    ) -> Result<(), Failed>
        requires { IsPossibleReading self.old.set self.old.spot.current.0 reading }
        ensures set { self.new.set ≡ self.old.set }
        ensures spot { OnOk result (self.new.spot ≡ spot_behind self.old.set self.old.spot (meant reading (L.tokens line.now))) }
        ensures writes { Writes (K.sight out.old) (K.sight out.new)
            (answer_to self.old.set self.old.spot (meant reading (L.tokens line.now))) result }
    {
        if let Reading::Outside = reading {
            return put_all(out, b"bad-command\n");
        }
        let current = self.current;
        if self.follow(reading, line, out)? {
            return Ok(());
        }
        self.current = current;
        put_all(out, b"past-end\n")
    }

    /// Answers a line: puts what it writes as a line of a script, or `bad-command`, or `past-end`. The line has no newline.
    ///
    /// After `Failed` a front of the answer is appended, and where the debugger stands is not said.
    pub fn obey<K: Sink>(
        &mut self,
        labels: &TextLabels<'_>,
        line: &[u8],
        out: &mut K,
    ) -> Result<(), Failed>
        ensures set { self.new.set ≡ self.old.set }
        ensures spot { OnOk result (self.new.spot ≡ line_spot (places_in labels.now) self.old.set self.old.spot line.now) }
        ensures answer { Writes (K.sight out.old) (K.sight out.new)
            (line_answer (places_in labels.now) self.old.set self.old.spot line.now) result }
    {
        if flaw_of(line).is_some() {
            return put_all(out, b"bad-command\n");
        }
        let tokens = bytes_line(line);
        let reading = self.read(labels, &tokens);
        self.answer(reading, &tokens, out)
    }
}

// Puts what a command writes that led nowhere, and says whether it is none that goes past the end.
fn put_none<K: Sink>(command: Command, out: &mut K) -> Result<bool, Failed>
    ensures answer { (set : ProgramSet) (spot : Spot) → leads_to set spot command ≡ None →
        IfOk result (λ done. done ≡ not (goes_past set command)) }
    ensures writes { (set : ProgramSet) (spot : Spot) → leads_to set spot command ≡ None → Writes
        (K.sight out.old) (K.sight out.new)
        (line_text set spot (Says command)) result }
{
    if let Command::At { .. } = command {
        return Ok(false);
    }
    put_all(out, b"none\n")?;
    Ok(true)
}
