//! The words after the program's name.
ghost use Rattle.std.specs.Prelude.{◌≡◌, map, string_bytes};
ghost use Rattle.raw_debug_live.specs.Words.{asks_live};

/// Whether the words are `debug --live`.
pub fn asks_live(words: &[String]) -> bool
    ensures { result ≡ asks_live (map string_bytes words.now) }
{
    match words {
        [command, option] => {
            if command.as_str().as_bytes() == "debug".as_bytes() {
                option.as_str().as_bytes() == "--live".as_bytes()
            } else {
                false
            }
        }
        _ => false,
    }
}
