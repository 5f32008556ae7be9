//! What can be wrong with the bytes of an image.
ghost use Rattle.std.specs.Prelude.{◌≡◌};
ghost use Rattle.raw_image.specs.Kinds.{image_kind_text};

/// What is wrong with the bytes of an image.
#[derive(Clone, Copy, PartialEq, Eq)]
pub enum ImageKind {
    /// The bytes do not begin with `RAWT`. Told at offset 0.
    BadMagic,
    /// The version is neither 1 nor 2. Told at offset 4.
    BadVersion,
    /// Fewer bytes are left than the field has. Told at the length of the input.
    Short,
    /// A set can't have such a value there. Told at the first byte of the field.
    BadField,
    /// Bytes are left behind the last field. Told at the first of them.
    Extra,
}

impl ImageKind {
    /// Its word, as a program tells it: small letters and hyphens.
    pub fn word(self) -> &'static [u8]
        ensures { result.now ≡ image_kind_text self }
    {
        match self {
            ImageKind::BadMagic => b"bad-magic",
            ImageKind::BadVersion => b"bad-version",
            ImageKind::Short => b"short",
            ImageKind::BadField => b"bad-field",
            ImageKind::Extra => b"extra",
        }
    }
}

/// Why bytes were not read as an image. They are unchanged.
#[derive(Clone, Copy, PartialEq, Eq)]
pub enum ImageRefusal {
    /// The first fault in the order of the fields: where it is, in bytes from the start, and what it is.
    At { offset: u64, kind: ImageKind },
    /// No memory was left for the set.
    Memory,
}
