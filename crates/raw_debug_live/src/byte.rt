//! One byte of a source.
ghost use Rattle.std.specs.Prelude.{◌≤◌};
ghost use Rattle.raw_debug_live.specs.Bytes.{TakesByte};

use raw_io::{Failed, Source};

/// Takes the next byte of a source, if there is one.
pub(crate) fn take_byte<S: Source>(source: &mut S) -> Result<Option<u8>, Failed>
    ensures takes { TakesByte (S.sight source.old) (S.sight source.new) result }
    ensures count { (S.sight source.old).faults ≤ (S.sight source.new).faults }
{
    let mut byte = [0u8];
    if source.take(&mut byte)? == 0 {
        return Ok(None);
    }
    Ok(Some(byte[0]))
}
