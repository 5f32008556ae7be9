//! The laws of pictures. The function does nothing of its own: its contract is the law.
ghost use Rattle.std.specs.Prelude.{◌≡◌, ℕ, Bool, List, decimal};
ghost use Rattle.raw_grid.specs.Topology.{Topology};
ghost use Rattle.raw_grid.specs.declared.parts.PortPlace.{PortPlace};
ghost use Rattle.raw_model.specs.Program.{ProgramSet, IsSet};
ghost use Rattle.raw_model.specs.Start.{MachineState};
ghost use Rattle.raw_model.specs.Rest.{IsRun};
ghost use Rattle.raw_model.specs.Outcomes.{Outcome};
ghost use Rattle.raw_model.specs.Texts.{words_text};
ghost use Rattle.raw_model.specs.StateTexts.{mark_of, outcome_word};
ghost use Rattle.raw_picture.specs.declared.names.Progress.{Progress};
ghost use Rattle.raw_picture.specs.declared.told.Telling.TheVariants.{Sentences};
ghost use Rattle.raw_picture.specs.Plain.{IsPlain, escape};
ghost use Rattle.raw_picture.specs.Markup.{HasOnlyItsMarkup};
ghost use Rattle.raw_picture.specs.Forms.{labelled};
ghost use Rattle.raw_names.specs.Names.{processor_name};
ghost use Rattle.raw_picture.specs.Names.{wait_text, shown_mark};
ghost use Rattle.raw_picture.specs.Told.{say, all_waits};
ghost use Rattle.raw_picture.specs.Opening.{title_text, set_text};
ghost use Rattle.raw_picture.specs.Boxes.{box_title, port_title, port_text};
ghost use Rattle.raw_picture.specs.Flows.{wire_text};
ghost use Rattle.raw_picture.specs.Picture.{picture};

/// Two lists of steps of a set that come to rest have the same picture.
pub fn law_same_picture()
    ensures { (set : ProgramSet) (h g : List ℕ) → IsSet set → IsRun set h → IsRun set g →
        picture set g ≡ picture set h }
{}

/// What a picture says in words needs no escaping: each text, each title and the description are of small letters,
/// N, E, S, W, digits, blanks and `# , - . / : ;` alone.
pub fn law_no_escapes()
    // A plain text is the same when it is escaped.
    ensures escaped { (text : List ℕ) → IsPlain text → escape text ≡ text }
    // The title of the document, its head lines and its description:
    ensures title { (set : ProgramSet) (s : MachineState) → IsPlain (title_text set s) }
    ensures outcome { (o : Outcome) → IsPlain (outcome_word o) }
    ensures say { (set : ProgramSet) (s : MachineState) (o : Outcome) → IsPlain (say set s o) }
    ensures told { (set : ProgramSet) (s : MachineState) → IsPlain (all_waits Sentences set s) }
    ensures set { (set : ProgramSet) → IsPlain (set_text set) }
    // The boxes of tiles, switches and ports:
    ensures name { (topo : Topology) (p : ℕ) → IsPlain (processor_name topo p) }
    ensures mark { (set : ProgramSet) (s : MachineState) (p : ℕ) → IsPlain (mark_of set s p) }
    ensures shown { (set : ProgramSet) (s : MachineState) (p : ℕ) (empty : Bool) → IsPlain (shown_mark set s p empty) }
    ensures labelled { (label : List ℕ) (n : ℕ) → IsPlain label → IsPlain (labelled label n) }
    ensures box_title { (topo : Topology) (p : ℕ) (mark : List ℕ) (far : Progress) → IsPlain mark →
        IsPlain (box_title topo p mark far) }
    ensures port_title { (topo : Topology) (p : ℕ) (place : PortPlace) (mark : List ℕ) (count most : ℕ) → IsPlain mark →
        IsPlain (port_title topo p place mark count most) }
    ensures port_text { (place : PortPlace) (count most : ℕ) → IsPlain (port_text place count most) }
    // Wires and waits:
    ensures wire { (topo : Topology) (v : ℕ) → IsPlain (wire_text topo v) }
    ensures values { (values : List ℕ) → IsPlain (words_text values) }
    ensures number { (n : ℕ) → IsPlain (decimal n) }
    ensures wait { (topo : Topology) (p v : ℕ) → IsPlain (wait_text topo p v) }
{}

/// No byte of markup, that is `<`, `>`, `&` or a mark of quotation, comes into a picture from its set: the whole text is made of
/// pieces, each of which is one of the fixed ones (`markup`) or has no such byte.
pub fn law_no_markup()
    ensures { (set : ProgramSet) (steps : List ℕ) → HasOnlyItsMarkup (picture set steps) }
{}
