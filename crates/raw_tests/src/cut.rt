//! Sets that never end against streams: which are proved for every number of rows, and that no wrong proof is taken.
ghost use Rattle.std.specs.Prelude.{IfOk};
ghost use Rattle.raw_row_terms.specs.RowClaims.{IsClaimOf};

use raw_cut::{CutLocal, Extent, LiveProof, find_live_proof, is_live_proof, prove_live};
use raw_model::Set;
use raw_row_claim_text::{RowClaim, SeatedStream, read_row_claim, seat};
use raw_stream::StreamFlow;
use raw_text::{MAX_TEXT, read_text};
use std::alloc::Global;
use std::test::Fail;

/// Running sums on one tile.
const SUMS: &[u8] = b"grid 1 1\nlimit 100000\nsource 1 0 0 W\nsink 1 0 0 E 1000\n\
tile 0 0\nli $5, 0\nloop: addu $5, $5, $24\nmove $24, $5\nj loop\nend\n\
switch 0 0\nloop: 1:W>P\nj loop 1:P>E\nend\n\
claim\ngrid 1 1\nrows 3\ninput x\ndef p pre s 0\ndef s add x p\nout s 1 0 0 E\n";

/// The same set, of which a sum of two words is claimed.
const OTHER: &[u8] = b"grid 1 1\nlimit 100000\nsource 1 0 0 W\nsink 1 0 0 E 1000\n\
tile 0 0\nli $5, 0\nloop: addu $5, $5, $24\nmove $24, $5\nj loop\nend\n\
switch 0 0\nloop: 1:W>P\nj loop 1:P>E\nend\n\
claim\ngrid 1 1\nrows 3\ninput x\ndef p pre x 0\ndef s add x p\nout s 1 0 0 E\n";

/// A set that drops each tenth word.
const TENTH: &[u8] = b"grid 1 1\nlimit 100000\nsource 1 0 0 W\nsink 1 0 0 E 1000\n\
switch 0 0\nloop: 1:W>E\n1:W>E\n1:W>E\n1:W>E\n1:W>E\n1:W>E\n1:W>E\n1:W>E\n1:W>E\nmove r0, 1:W\nj loop\nend\n\
claim\ngrid 1 1\nrows 3\ninput x\nout x 1 0 0 E\n";

/// A set that gives the first word as it is, and each later one with a register more, which is 0 at first.
const SECOND: &[u8] = b"grid 1 1\nlimit 100000\nsource 1 0 0 W\nsink 1 0 0 E 1000\n\
tile 0 0\nloop: addu $24, $24, $5\nli $5, 1\nj loop\nend\n\
switch 0 0\nloop: 1:W>P\nj loop 1:P>E\nend\n\
claim\ngrid 1 1\nrows 3\ninput x\nout x 1 0 0 E\n";

/// A set that takes two words of its second source in each row, of which the claim has one.
const TWICE: &[u8] = b"grid 1 1\nlimit 100000\nsource 1 0 0 W\nsource 2 0 0 W\nsink 1 0 0 E 1000\n\
switch 0 0\nloop: 1:W>E\nmove r0, 2:W\nmove r0, 2:W\nj loop\nend\n\
claim\ngrid 1 1\nrows 3\ninput x\ninput y 2 0 0 W\nout x 1 0 0 E\n";

/// Three taps on a row of tiles.
const TAPS: &[u8] = b"grid 3 1\nlimit 100000\nsource 1 0 0 W\nsource 2 0 0 W\nsink 2 2 0 E 1000\n\
tile 0 0\nli $8, 1\nloop: move $6, $24\nmul $9, $6, $8\naddu $25, $25, $9\nmove $24, $7\nmove $7, $6\nj loop\nend\n\
switch 0 0\nloop: 1:W>P 2:W>P\nj loop 1:P>E 2:P>E\nend\n\
tile 1 0\nli $8, -2\nloop: move $6, $24\nmul $9, $6, $8\naddu $25, $25, $9\nmove $24, $7\nmove $7, $6\nj loop\nend\n\
switch 1 0\nloop: 1:W>P 2:W>P\nj loop 1:P>E 2:P>E\nend\n\
tile 2 0\nli $8, 1\nloop: move $6, $24\nmul $9, $6, $8\naddu $25, $25, $9\nmove $24, $7\nmove $7, $6\nj loop\nend\n\
switch 2 0\nloop: 1:W>P 2:W>P\nmove r1, 1:P 2:P>E\nj loop\nend\n\
claim\ngrid 3 1\nrows 3\ninput x\ninput z 2 0 0 W\ndef a pre x 0\ndef b pre a 0\ndef m const -2\n\
def t mul a m\ndef u add z x\ndef v add u t\ndef w add v b\nout w 2 2 0 E\n";

/// The words of a row in the other order. A row is known as late as its second word is there.
const SWAPS: &[u8] = b"grid 1 1\nlimit 100000\nsource 1 0 0 W\nsink 1 0 0 E 1000\n\
tile 0 0\nloop: move $5, $24\nmove $24, $24\nmove $24, $5\nj loop\nend\n\
switch 0 0\nloop: 1:W>P\n1:W>P\n1:P>E\nj loop 1:P>E\nend\n\
claim\ngrid 1 1\nrows 3\ninput x\ninput y\nout y 1 0 0 E\nout x 1 0 0 E\n";

/// The word of two rows before, kept in a table in memory, of which a register has the place.
const TABLE: &[u8] = b"grid 1 1\nlimit 100000\nsource 1 0 0 W\nsink 1 0 0 E 1000\n\
tile 0 0\nloop: lw $5, 0($6)\nsw $24, 0($6)\naddiu $6, $6, 4\nandi $6, $6, 7\nmove $24, $5\nj loop\nend\n\
switch 0 0\nloop: 1:W>P\nj loop 1:P>E\nend\n\
claim\ngrid 1 1\nrows 3\ninput x\ndef a pre x 0\ndef b pre a 0\nout b 1 0 0 E\n";

/// Texts of claims, and the most rows for which they are proved.
static SETS: [(&[u8], Option<u32>); 8] = [
    (SUMS, Some(999)),
    (OTHER, None),
    (TENTH, None),
    (SECOND, None),
    (TWICE, None),
    (TAPS, Some(999)),
    (SWAPS, Some(499)),
    (TABLE, Some(999)),
];

/// A set, a stream with its ports, and those that are sinks of the stream.
#[derive(Drop)]
struct Claim {
    set: Set,
    stream: StreamFlow,
    order: Vec<u32>,
}

// The claim that a text says.
fn read(alloc: Global, bytes: &[u8]) -> Result<Claim, Fail>
    ensures { IfOk result (λ claim. IsClaimOf claim.set claim.stream claim.order.items) }
{
    if bytes.len() > MAX_TEXT {
        return Err("too long a text".into());
    }
    let text = read_text(alloc, bytes.to_vec(alloc)?)?;
    match read_row_claim(alloc, &text) {
        Ok(Some(claim)) => {
            let RowClaim { set, input } = claim;
            let seated = seat(alloc, &set, &input.stream)?;
            let SeatedStream { stream, order } = seated;
            Ok(Claim { set, stream, order })
        }
        _ => Err("no claim of rows".into()),
    }
}

// For how many rows a set is proved at most.
fn most_rows(alloc: Global, bytes: &[u8]) -> Result<Option<u32>, Fail> {
    let Claim { set, stream, .. } = read(alloc, bytes)?;
    match prove_live(alloc, &set, &stream)? {
        Some(Extent { most, .. }) => Ok(Some(most)),
        None => Ok(None),
    }
}

#[test]
fn sets_are_proved_for_every_number_of_rows(rt: HostRuntime) -> Result<(), Fail> {
    for (bytes, most) in &SETS {
        assert!(rt; most_rows(rt.alloc(), bytes)? == *most);
    }
    Ok(())
}

// Makes a proof wrong in one of several ways; whether there is this way.
fn spoil(proof: &mut LiveProof, way: u32) -> bool {
    match way {
        0 => proof.rows = proof.rows.saturating_add(1),
        1 => proof.first_rows = proof.first_rows.saturating_add(1),
        2 => proof.limit = 1,
        3 => proof.kernel.truncate(1),
        4 => proof.endings.truncate(0),
        5 => {
            if let Some(CutLocal::Tile(tile)) = proof.cut.locals.get_mut(0) {
                tile.regs[5] = 0;
            }
        }
        6 => {
            if let Some(CutLocal::Source(port)) = proof.cut.locals.get_mut(2) {
                port.done = port.done.saturating_add(1);
            }
        }
        _ => return false,
    }
    true
}

#[test]
fn no_wrong_proof_is_taken(rt: HostRuntime) -> Result<(), Fail> {
    for way in 0..7 {
        let alloc = rt.alloc();
        let Claim { set, stream, .. } = read(alloc, SUMS)?;
        let Some(mut proof) = find_live_proof(alloc, &set, &stream, 100_000)? else {
            return Err("no proof".into());
        };
        if spoil(&mut proof, way) {
            assert!(rt; !is_live_proof(alloc, &set, &stream, &proof)?);
        }
    }
    Ok(())
}
