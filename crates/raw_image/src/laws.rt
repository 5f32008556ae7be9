//! Laws of the definitions. Each function does nothing: its contract is the law.
ghost use Rattle.std.specs.Prelude.{◌≡◌, ◌≢◌, ◌^◌, ◌<◌, ◌≤◌, ◌++◌, ℕ, List, length, take, codes, Ok, Err};
ghost use Rattle.std.specs.List.{All};
ghost use Rattle.raw_model.specs.Program.{ProgramSet, IsSet};
ghost use Rattle.raw_image.specs.declared.version.Version.{Version};
ghost use Rattle.raw_image.specs.declared.kind.ImageKind.{ImageKind};
ghost use Rattle.raw_image.specs.Image.{Image, ImageFault, IsImageIn, image, number};
ghost use Rattle.raw_image.specs.declared.refused.Fault.{Fault};
ghost use Rattle.raw_image.specs.Reading.{reading};
ghost use Rattle.raw_image.specs.Answers.{HasOneAnswer};

use crate::kind::ImageKind;

/// A list of bytes is the image of exactly one set, in exactly one version, or has exactly one first fault, and
/// not both. That there is no second set, and no fault beside a set, is so of every list of numbers.
pub fn law_one_answer()
    ensures answer { (bytes : List ℕ) → All (λ byte. byte < 256) bytes → HasOneAnswer bytes }
    ensures version { (bytes : List ℕ) (v w : Version) (a b : ProgramSet) →
        IsImageIn v bytes a → IsImageIn w bytes b → v ≡ w }
    ensures one_set { (bytes : List ℕ) (a b : ProgramSet) → Image bytes a → Image bytes b → a ≡ b }
    ensures not_both { (bytes : List ℕ) (set : ProgramSet) (offset : ℕ) (kind : ImageKind) →
        Image bytes set → ImageFault bytes offset kind → ⊥ }
{
    raw_tile_isa::law_codes();
    raw_grid::law_sizes();
}

/// Where first faults are. Each front of an image is cut off at its end; bytes behind an image are told at the
/// first of them; and what is wrong in a field stays so whatever follows.
pub fn law_faults()
    ensures front { (bytes : List ℕ) (set : ProgramSet) (n : ℕ) →
        Image bytes set → n < length bytes → ImageFault (take n bytes) n ImageKind.Short }
    ensures behind { (bytes more : List ℕ) (set : ProgramSet) →
        Image bytes set → 0 < length more → ImageFault (bytes ++ more) (length bytes) ImageKind.Extra }
    ensures short { (bytes : List ℕ) (offset : ℕ) →
        ImageFault bytes offset ImageKind.Short → offset ≡ length bytes }
    ensures stays { (bytes more : List ℕ) (offset : ℕ) (kind : ImageKind) →
        kind ≢ ImageKind.Short → kind ≢ ImageKind.Extra →
        ImageFault bytes offset kind → ImageFault (bytes ++ more) offset kind }
{
    law_reading();
}

/// Bytes say a set exactly where they are an image of it, and a fault is within the bytes.
pub(crate) fn law_reading()
    ensures image { (bytes : List ℕ) (set : ProgramSet) → All (λ byte. byte < 256) bytes →
        reading bytes ≡ Ok set → Image bytes set }
    ensures read { (bytes : List ℕ) (set : ProgramSet) → Image bytes set → reading bytes ≡ Ok set }
    ensures within { (bytes : List ℕ) (fault : Fault) → All (λ byte. byte < 256) bytes →
        reading bytes ≡ Err fault → fault.left ≤ length bytes }
{
    raw_tile_isa::law_codes();
    raw_grid::law_sizes();
}

/// The image of a set is one of the set, and of no other: two sets with the same image are the same set. It has at
/// most 4,194,304 bytes. Bytes that are an image and say version 2 are the image of their set.
pub fn law_read_back()
    ensures back { (set : ProgramSet) → IsSet set → Image (image set) set }
    ensures short { (set : ProgramSet) → IsSet set → length (image set) ≤ 2 ^ 22 }
    ensures second { (bytes : List ℕ) (set : ProgramSet) →
        Image bytes set → take 8 bytes ≡ codes "RAWT" ++ number 2 → bytes ≡ image set }
    ensures one { (a b : ProgramSet) → IsSet a → IsSet b → image a ≡ image b → a ≡ b }
{
    raw_tile_isa::law_codes();
    raw_grid::law_sizes();
}
