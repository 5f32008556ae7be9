//! Texts of claims of rows: that they are read, that they are none, or the line and kind of their least fault.
use raw_row_claim_text::read_row_claim;
use raw_set_text::{SetKind, SetRefusal};
use raw_text::{MAX_TEXT, read_text};
use std::alloc::Global;
use std::test::Fail;

/// A set that gives each word of its source to its sink, in 10 lines.
const SET: &[u8] =
    b"grid 1 1\nlimit 10\nsource 1 0 0 W\nsink 1 0 0 E 1\nfeed 1 0 0 W 3\nswitch 0 0\n1:W>E\nhalt\nend\n\n";

/// What a text has to be.
enum Due {
    Read,
    /// No claim of rows.
    Other,
    At(u32, SetKind),
}

/// What stands behind the set. Worked by hand.
static ROWS: [(&[u8], Due); 8] = [
    (
        b"claim\ngrid 1 1\nrows 2\ninput x\nout x 1 0 0 E\n",
        Due::Read,
    ),
    // Where no words are fed none are missing, and else they are asked for.
    (
        b"claim\ngrid 1 1\nrows 2\ninput x\nout x 1 0 0 E\nfeed 1 0 0 W 3 4\n",
        Due::Read,
    ),
    (
        b"claim\ngrid 1 1\nrows 2\ninput x\nout x 1 0 0 E\nfeed 1 0 0 W 3\n",
        Due::At(17, SetKind::Missing),
    ),
    // The grid is that of the set, and the ports are its own.
    (
        b"claim\ngrid 2 1\nrows 2\ninput x\nout x 1 0 0 E\n",
        Due::At(12, SetKind::BadSize),
    ),
    (
        b"claim\ngrid 1 1\nrows 2\ninput x 2 0 0 W\nout x 1 0 0 E\n",
        Due::At(14, SetKind::UndeclaredEdge),
    ),
    (
        b"claim\ngrid 1 1\nrows 2\ninput x\nout x\n",
        Due::At(15, SetKind::UndeclaredEdge),
    ),
    // The claim of a flow, and a set alone.
    (b"claim\ngrid 1 1\ninput x 3\nout x\n", Due::Other),
    (b"", Due::Other),
];

// Whether the set with this behind it is what it has to be.
fn gives(alloc: Global, claim: &[u8], due: &Due) -> Result<bool, Fail> {
    let mut bytes = SET.to_vec(alloc)?;
    bytes.extend_from_slice(claim)?;
    if bytes.len() > MAX_TEXT {
        return Ok(false);
    }
    let text = read_text(alloc, bytes)?;
    match (read_row_claim(alloc, &text), due) {
        (Ok(Some(_)), Due::Read) => Ok(true),
        (Ok(None), Due::Other) => Ok(true),
        (Err(refusal), Due::At(line, kind)) => Ok(
            refusal
                == SetRefusal::At {
                    line: *line,
                    kind: *kind,
                },
        ),
        _ => Ok(false),
    }
}

#[test]
fn claims_of_rows_are_read_or_refused(rt: HostRuntime) -> Result<(), Fail> {
    for (claim, due) in &ROWS {
        assert!(rt; gives(rt.alloc(), claim, due)?);
    }
    Ok(())
}
