//! Laws of the definitions. Each function does nothing: its contract is the law.
ghost use Rattle.std.specs.Prelude.{◌≡◌, ℕ, ◌+◌, ◌-◌, ◌*◌, ◌^◌, ◌<◌, ◌≤◌, Bool, true, false, not, ◌==◌, List, [], ◌∷◌, ◌++◌, length, codes, slice_index, Some, None};
ghost use Rattle.std.specs.List.{list_all, AllByRecursion};
ghost use Rattle.std.specs.Fmt.{decimal};
ghost use Rattle.raw_text.specs.Lines.{is_newline, is_hash, is_blank, is_plain, is_solid, lines_of, tokens_of, first_fault, IsPlain, IsLine, IsToken, written_lines, joined};
ghost use Rattle.raw_text.specs.Number.{digits_up_to, number_of, hex_digits};

use crate::limits::MAX_LINE;

/// Lines that are written, each with a newline after it, are read again.
pub fn law_lines()
    ensures empty { lines_of [] ≡ [] }
    ensures next { (line rest : List ℕ) → list_all (λ b. not (is_newline b)) line ≡ true →
        lines_of (line ++ 10 ∷ rest) ≡ line ∷ lines_of rest }
    ensures plain { (line : List ℕ) → IsPlain line → list_all (λ b. not (is_newline b)) line ≡ true }
    ensures plain_append { (front back : List ℕ) → IsPlain front → IsPlain back → IsPlain (front ++ back) }
    ensures many { (lines : List (List ℕ)) → AllByRecursion IsPlain lines →
        lines_of (written_lines lines) ≡ lines }
    ensures faultless { (number : ℕ) (lines : List (List ℕ)) → AllByRecursion IsLine lines →
        first_fault number lines ≡ None }
    ensures each_plain { (lines : List (List ℕ)) → AllByRecursion IsLine lines →
        AllByRecursion IsPlain lines }
    ensures length { (lines : List (List ℕ)) → AllByRecursion IsLine lines →
        length (written_lines lines) ≤ (MAX_LINE + 1) * length lines }
    ensures worked { written_lines (codes "a b" ∷ [] ∷ codes "c" ∷ []) ≡ codes "a b" ++ 10 ∷ 10 ∷ codes "c" ++ 10 ∷ [] }
    ensures append { (front back : List (List ℕ)) →
        written_lines (front ++ back) ≡ written_lines front ++ written_lines back }
{}

/// Tokens that are written with blanks between them are read again.
pub fn law_tokens()
    ensures none { tokens_of [] ≡ [] }
    ensures blank { (blank : ℕ) (rest : List ℕ) → is_blank blank ≡ true →
        tokens_of (blank ∷ rest) ≡ tokens_of rest }
    ensures first { (token rest : List ℕ) (blank : ℕ) → IsToken token → is_blank blank ≡ true →
        tokens_of (token ++ blank ∷ rest) ≡ token ∷ tokens_of rest }
    ensures last { (token : List ℕ) → IsToken token → tokens_of token ≡ token ∷ [] }
    ensures comment { (line rest : List ℕ) → list_all (λ b. not (is_hash b)) line ≡ true →
        tokens_of (line ++ 35 ∷ rest) ≡ tokens_of line }
    ensures joined { (separator : List ℕ) (tokens : List (List ℕ)) → 0 < length separator →
        list_all is_blank separator ≡ true → AllByRecursion IsToken tokens →
        tokens_of (joined separator tokens) ≡ tokens }
    ensures spaced { (tokens : List (List ℕ)) → AllByRecursion IsToken tokens →
        tokens_of (joined (codes " ") tokens) ≡ tokens }
    ensures listed { (tokens : List (List ℕ)) → AllByRecursion IsToken tokens →
        tokens_of (joined (codes ", ") tokens) ≡ tokens }
    ensures named { (name : List ℕ) (tokens : List (List ℕ)) → IsToken name →
        AllByRecursion IsToken tokens →
        tokens_of (name ++ 32 ∷ joined (codes ", ") tokens) ≡ name ∷ tokens }
    ensures append { (front back : List ℕ) → IsToken front → list_all is_solid back ≡ true →
        IsToken (front ++ back) }
    ensures plain { (token : List ℕ) → IsToken token → IsPlain token }
    ensures joined_worked { joined (codes ", ") (codes "$1" ∷ codes "$2" ∷ codes "7" ∷ []) ≡ codes "$1, $2, 7" }
    ensures joined_plain { (separator : List ℕ) (tokens : List (List ℕ)) → IsPlain separator →
        AllByRecursion IsToken tokens → IsPlain (joined separator tokens) }
    ensures named_plain { (name : List ℕ) (tokens : List (List ℕ)) → IsToken name →
        AllByRecursion IsToken tokens → IsPlain (name ++ 32 ∷ joined (codes ", ") tokens) }
    ensures joined_length { (separator : List ℕ) (tokens : List (List ℕ)) (most : ℕ) →
        AllByRecursion (λ token. length token ≤ most) tokens →
        length (joined separator tokens) ≤ length tokens * (length separator + most) }
{}

/// Numbers that are written are read again, and their texts are tokens.
pub fn law_numbers()
    ensures decimal { (n : ℕ) → n < 2 ^ 32 → number_of (decimal n) ≡ Some n }
    ensures negative { (n : ℕ) → 0 < n → n ≤ 2 ^ 31 →
        number_of (45 ∷ decimal n) ≡ Some (2 ^ 32 - n) }
    ensures hexadecimal { (width n : ℕ) → 0 < width → width ≤ 8 → n < 16 ^ width →
        number_of (codes "0x" ++ hex_digits width n) ≡ Some n }
    ensures up_to { (n most : ℕ) → n < 2 ^ 64 → n ≤ most → digits_up_to most 10 (decimal n) ≡ Some n }
    ensures hex_up_to { (width n most : ℕ) → 0 < width → width ≤ 8 → n < 16 ^ width → n ≤ most →
        digits_up_to most 16 (hex_digits width n) ≡ Some n }
    ensures decimal_token { (n : ℕ) → n < 2 ^ 64 → IsToken (decimal n) }
    ensures negative_token { (n : ℕ) → n < 2 ^ 64 → IsToken (45 ∷ decimal n) }
    ensures hex_token { (width n : ℕ) → 0 < width → width ≤ 8 → n < 16 ^ width →
        IsToken (codes "0x" ++ hex_digits width n) }
    ensures decimal_passes { (test : ℕ → Bool) (n : ℕ) → n < 2 ^ 64 →
        ((b : ℕ) → 48 ≤ b → b ≤ 57 → test b ≡ true) → list_all test (decimal n) ≡ true }
    ensures hex_passes { (test : ℕ → Bool) (width n : ℕ) →
        ((b : ℕ) → 48 ≤ b → b ≤ 57 → test b ≡ true) → ((b : ℕ) → 97 ≤ b → b ≤ 102 → test b ≡ true) →
        list_all test (hex_digits width n) ≡ true }
    ensures first_low { (n : ℕ) → n < 2 ^ 64 → 48 ≤ slice_index (decimal n) 0 }
    ensures first_high { (n : ℕ) → n < 2 ^ 64 → slice_index (decimal n) 0 ≤ 57 }
    ensures no_leading_zero { (n : ℕ) → n < 2 ^ 64 → 1 < length (decimal n) →
        (slice_index (decimal n) 0 == 48) ≡ false }
    ensures decimal_length { (n : ℕ) → n < 2 ^ 32 → length (decimal n) ≤ 10 }
    ensures hex_worked { hex_digits 4 175 ≡ codes "00af" }
    ensures hex_length { (width n : ℕ) → 0 < width → width ≤ 8 → n < 16 ^ width →
        length (hex_digits width n) ≡ width }
{}
