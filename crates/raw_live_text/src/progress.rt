//! How far the lines behind `live` were read.
ghost use Rattle.std.specs.Prelude.{◌≡◌, true, not};
ghost use Rattle.std.specs.List.{list_all};
ghost use Rattle.raw_text.specs.Lines.{is_newline};

/// What the reader knows between two bytes.
#[derive(Drop)]
pub struct Progress {
    /// The bytes of the line that is not whole yet.
    pub(crate) line: Vec<u8>,
    /// The number of that line.
    pub(crate) number: u32,
    /// How many words were handed on.
    pub(crate) words: u32,
    ghost free: { list_all (λ b. not (is_newline b)) line.items ≡ true },
}
