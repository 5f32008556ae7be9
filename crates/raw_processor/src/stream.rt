//! The miss stream of a tile: how many stall turns each miss costs.
ghost use Rattle.std.specs.Prelude.{◌≡◌, ◌+◌, slice_index};
ghost use Rattle.raw_model.specs.Cache.{turns};

/// The stall turns that a tile owes for a miss, the first one being number 0: the number at that place
/// of its miss stream, and 0 past the end.
pub fn owed_at(stream: &[u8], miss: u64) -> u8
    ensures number { result ≡ slice_index stream.now miss }
    ensures turns { turns stream.now (miss + 1) ≡ turns stream.now miss + result }
{
    stream.get(miss as usize).copied().unwrap_or(0)
}
