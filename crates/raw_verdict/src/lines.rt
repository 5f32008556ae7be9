//! The lines of what is said of a claim, made in place from the numbers that they show.
ghost use Rattle.std.specs.Prelude.{◌≡◌, ◌≤◌, length};
ghost use Rattle.raw_verdict.specs.Text.{number_line, counts_line, hangs_line, rests_line, proved_line, proved_text, verdict_text, fault_text, words_text};

use raw_grid::ProcId;
use raw_outcome::Outcome;
use raw_refute::Fault;
use raw_state_text::Line;
use raw_term::Verdict;

// A line that ends with a number.
#[tactic(auto, unfolding(crate::specs::Text::number_line))]
fn number_line(front: &[u8], n: u64) -> Line
    requires { length front.now ≤ 40 }
    ensures { result ≡ number_line front.now n }
{
    let mut line = Line::new();
    line.push_text(front);
    line.push_number(n);
    line.push_text(b"\n");
    line
}

// A line that ends with two numbers, of which the one stands for the other.
#[tactic(auto, unfolding(crate::specs::Text::counts_line))]
fn counts_line(front: &[u8], k: u64, n: u64) -> Line
    requires { length front.now ≤ 40 }
    ensures { result ≡ counts_line front.now k n }
{
    let mut line = Line::new();
    line.push_text(front);
    line.push_number(k);
    line.push_text(b" for ");
    line.push_number(n);
    line.push_text(b"\n");
    line
}

// The line of a step that wants a word of an input.
#[tactic(auto, unfolding(crate::specs::Text::hangs_line))]
fn hangs_line(step: u64, p: ProcId) -> Line
    ensures { result ≡ hangs_line step p.0 }
{
    let mut line = Line::new();
    line.push_text(b"unproved at ");
    line.push_number(step);
    line.push_text(b": ");
    line.push_number(u64::from(p.0));
    line.push_text(b" hangs on an input\n");
    line
}

// The line of a run that comes to rest with this outcome.
#[tactic(auto, unfolding(crate::specs::Text::rests_line))]
fn rests_line(outcome: Outcome) -> Line
    ensures { result ≡ rests_line outcome }
{
    let mut line = Line::new();
    line.push_text(b"unproved: outcome ");
    line.push_text(outcome.word());
    line.push_text(b"\n");
    line
}

// A line that says nothing more.
fn fixed_line(text: &[u8]) -> Line
    requires { length text.now ≤ 40 }
    ensures { result ≡ text.now }
{
    let mut line = Line::new();
    line.push_text(text);
    line
}

// The line of a claim of so many outs that is proved of a set of so many cycles.
#[tactic(auto, unfolding(crate::specs::Text::proved_line))]
fn proved_line(outs: u64, cycles: u64) -> Line
    ensures { result ≡ proved_line outs cycles }
{
    let mut line = Line::new();
    line.push_text(b"proved ");
    line.push_number(outs);
    line.push_text(b" cycles ");
    line.push_number(cycles);
    line.push_text(b"\n");
    line
}

/// The same, where the cycles may not be told.
pub(crate) fn proved_text(outs: u64, cycles: Option<u64>) -> Line
    ensures { result ≡ proved_text outs cycles }
{
    match cycles {
        Some(cycles) => proved_line(outs, cycles),
        None => number_line(b"proved ", outs),
    }
}

/// The line of a verdict, and of the cycles of a set of which a claim is proved.
pub(crate) fn verdict_line(verdict: Verdict, cycles: Option<u64>) -> Line
    ensures { result ≡ verdict_text cycles verdict }
{
    match verdict {
        Verdict::Proved(outs) => proved_text(outs as u64, cycles),
        Verdict::Hangs { step, p } => hangs_line(step, p),
        Verdict::TooMany => fixed_line(b"unproved: too many terms\n"),
        Verdict::Rests(outcome) => rests_line(outcome),
        Verdict::Inputs { inputs, words } => {
            counts_line(b"unproved: inputs ", inputs as u64, words as u64)
        }
        Verdict::Words { received, outs } => {
            counts_line(b"unproved: words ", received as u64, outs as u64)
        }
        Verdict::Differs(out) => number_line(b"unproved: out ", out as u64),
    }
}

// The line of a run that is not done.
#[tactic(auto, unfolding(crate::specs::Text::fault_text))]
fn ends_line(outcome: Outcome) -> Line
    ensures { result ≡ fault_text (Fault.Ends outcome) }
{
    let mut line = Line::new();
    line.push_text(b"refuted: outcome ");
    line.push_text(outcome.word());
    line.push_text(b"\n");
    line
}

/// The line of how a run differs from a claim.
#[tactic(auto, unfolding(crate::specs::Text::fault_text))]
pub(crate) fn fault_line(fault: Fault) -> Line
    ensures { result ≡ fault_text fault }
{
    match fault {
        Fault::Ends(outcome) => ends_line(outcome),
        Fault::Words { received, outs } => {
            counts_line(b"refuted: words ", received as u64, outs as u64)
        }
        Fault::Out { out, .. } => number_line(b"refuted: out ", out as u64),
    }
}

/// The lines of the word that was received for an out, and of the one that is claimed.
#[tactic(auto, unfolding(crate::specs::Text::words_text))]
pub(crate) fn words_lines(fault: Fault) -> Line
    ensures { result ≡ words_text fault }
{
    let mut line = Line::new();
    if let Fault::Out { word, claim, .. } = fault {
        line.push_text(b"word ");
        line.push_word(word);
        line.push_text(b"\nclaim ");
        line.push_word(claim);
        line.push_text(b"\n");
    }
    line
}
