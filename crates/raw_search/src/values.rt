//! Values of terms by their places, and numbers as words.

/// A place as a word; the greatest word where it is greater.
pub(crate) fn place(at: usize) -> u32 {
    match u32::try_from(at) {
        Ok(place) => place,
        Err(_) => u32::MAX,
    }
}

/// The low word of a number.
pub(crate) fn low_word(number: u64) -> u32 {
    (number % 0x1_0000_0000) as u32
}

/// The value at a place; 0 past the end.
pub(crate) fn value_at(values: &[u32], place: u32) -> u32 {
    match values.get(place as usize) {
        Some(value) => *value,
        None => 0,
    }
}

/// Whether the flag at a place is set; none is past the end.
pub(crate) fn is_set(flags: &[bool], place: u32) -> bool {
    match flags.get(place as usize) {
        Some(flag) => *flag,
        None => false,
    }
}

/// Sets the flag at a place, if it is there.
pub(crate) fn set_flag(flags: &mut [bool], place: u32) {
    if let Some(flag) = flags.get_mut(place as usize) {
        *flag = true;
    }
}
