//! What listings of all instruction sets share.
ghost use Rattle.std.specs.Prelude.{◌≡◌};
ghost use Rattle.raw_asm.specs.Listing.{separator};

/// What stands before an operand by its place: a blank before the first, a comma and a blank before the others.
pub fn separator(place: usize) -> &'static str
    ensures { result.now ≡ separator place }
{
    if place == 0 { " " } else { ", " }
}
