//! The listing of a set.
ghost use Rattle.std.specs.Prelude.{◌≡◌, ◌≤◌, ◌++◌, ◌∷◌, [], codes, length, map, IfOk, OnOk, string_bytes};
ghost use Rattle.std.specs.List.{flat_map, enumerate_from};
ghost use Rattle.std.specs.Fmt.{decimal};
ghost use Rattle.raw_text.specs.Lines.{written_lines};
ghost use Rattle.raw_tile_asm.specs.Listing.{listed_lines};
ghost use Rattle.raw_switch_asm.specs.Listing.{line_text};
ghost use Rattle.raw_set_text.specs.declared.word.Word.TheVariants as word;
ghost use Rattle.raw_set_text.specs.Listing.{spaced, hex_text, edge_texts, position_texts, line_of, first_lines, depth_lines, port_line_of, port_line, feed_line, words_lines, feed_lines, source_lines, data_line, turns_line, misses_lines, memory_lines, show_line, section_lines, program_lines, paired, front_lines, listing};

use crate::word::Word;
use raw_grid::{MAX_TILES, PortKind, PortPlace, Topo};
use raw_model::limits::DEFAULT_DEPTH;
use raw_model::{DataWord, PortProg, Set, Show, TileProg};
use raw_switch_asm::list_switch;
use raw_switch_isa::{MAX_SWITCH_CODE, SwitchIns};
use raw_tile_asm::list_tile;
use raw_tile_isa::{MAX_TILE_CODE, TileIns};
use std::alloc::{AllocError, Global};

/// How many words a `feed` line has at most.
const FEED_WORDS: usize = 8;

/// How many numbers a `misses` line has at most.
const MISSES_NUMBERS: usize = 16;

// Appends the edge of a port, behind a blank.
fn push_edge(text: &mut String, place: PortPlace) -> Result<(), AllocError>
    ensures { OnOk result (string_bytes text.new ≡ string_bytes text.old ++ spaced (edge_texts place)) }
{
    let net = place.net.text();
    let x = place.x;
    let y = place.y;
    let side = place.side.text();
    write!(text, " {net} {x} {y} {side}")
}

// Appends the column and the row of a tile, behind a blank.
fn push_position(text: &mut String, topo: &Topo, tile: u32) -> Result<(), AllocError>
    ensures { OnOk result (string_bytes text.new ≡ string_bytes text.old ++ spaced (position_texts topo.now.cols tile)) }
{
    let columns = u32::from(topo.cols());
    let x = tile % columns;
    let y = tile / columns;
    write!(text, " {x} {y}")
}

// Appends a word or an address, behind a blank.
#[tactic(auto, unfolding(raw_text::specs::Number::hex_digits))]
fn push_hex(text: &mut String, word: u32) -> Result<(), AllocError>
    ensures { OnOk result (string_bytes text.new ≡ string_bytes text.old ++ (codes " " ++ hex_text word)) }
{
    write!(text, " 0x{word:08x}")
}

// Appends words, each behind a blank.
fn push_words(text: &mut String, words: &[u32]) -> Result<(), AllocError>
    ensures { OnOk result (string_bytes text.new ≡ string_bytes text.old ++ spaced (map hex_text words.now)) }
{
    for word in words {
        push_hex(text, *word)?;
    }
    Ok(())
}

// Appends a number, behind a blank.
fn push_turns(text: &mut String, turns: u8) -> Result<(), AllocError>
    ensures { OnOk result (string_bytes text.new ≡ string_bytes text.old ++ (codes " " ++ decimal turns)) }
{
    write!(text, " {turns}")
}

// Appends numbers of a miss stream, each behind a blank.
fn push_numbers(text: &mut String, numbers: &[u8]) -> Result<(), AllocError>
    ensures { OnOk result (string_bytes text.new ≡ string_bytes text.old ++ spaced (map decimal numbers.now)) }
{
    for turns in numbers {
        push_turns(text, *turns)?;
    }
    Ok(())
}

// Appends the line that declares a port.
fn push_port(text: &mut String, place: PortPlace, capacity: u32) -> Result<(), AllocError>
    ensures { OnOk result (string_bytes text.new ≡ string_bytes text.old ++ (port_line_of place.kind place capacity ++ 10 ∷ [])) }
{
    match place.kind {
        PortKind::Source => {
            text.push_str(Word::Source.name())?;
            push_edge(text, place)?;
            text.push_str("\n")
        }
        PortKind::Sink => {
            text.push_str(Word::Sink.name())?;
            push_edge(text, place)?;
            write!(text, " {capacity}\n")
        }
    }
}

// Appends the lines that declare the ports.
fn push_ports(text: &mut String, topo: &Topo, ports: &[PortProg]) -> Result<(), AllocError>
    requires { length ports.now ≡ length topo.now.places }
    ensures { OnOk result (string_bytes text.new ≡ string_bytes text.old ++ written_lines (map port_line (paired topo.now.places ports.now))) }
{
    for i in 0..topo.ports() {
        let port = &ports[i as usize];
        push_port(text, topo.place_of(i), port.capacity)?;
    }
    Ok(())
}

// Appends a line of words for a source.
fn push_feed_line(text: &mut String, place: PortPlace, words: &[u32]) -> Result<(), AllocError>
    ensures { OnOk result (string_bytes text.new ≡ string_bytes text.old ++ (feed_line place words.now ++ 10 ∷ [])) }
{
    text.push_str(Word::Feed.name())?;
    push_edge(text, place)?;
    push_words(text, words)?;
    text.push_str("\n")
}

// Appends the lines of the words of one source.
fn push_feed(text: &mut String, place: PortPlace, words: &[u32]) -> Result<(), AllocError>
    ensures { OnOk result (string_bytes text.new ≡ string_bytes text.old ++ written_lines (words_lines place words.now)) }
{
    for piece in words.chunks(FEED_WORDS) {
        push_feed_line(text, place, piece)?;
    }
    Ok(())
}

// Appends the lines of the words of all sources.
fn push_feeds(text: &mut String, topo: &Topo, ports: &[PortProg]) -> Result<(), AllocError>
    requires { length ports.now ≡ length topo.now.places }
    ensures { OnOk result (string_bytes text.new ≡ string_bytes text.old ++ written_lines (flat_map feed_lines (paired topo.now.places ports.now))) }
{
    for i in 0..topo.ports() {
        let port = &ports[i as usize];
        push_feed(text, topo.place_of(i), &port.words)?;
    }
    Ok(())
}

// Appends the line of a word in a tile's memory.
fn push_cell(text: &mut String, topo: &Topo, tile: u32, cell: DataWord) -> Result<(), AllocError>
    ensures { OnOk result (string_bytes text.new ≡ string_bytes text.old ++ (data_line topo.now.cols tile cell ++ 10 ∷ [])) }
{
    text.push_str(Word::Data.name())?;
    push_position(text, topo, tile)?;
    push_hex(text, cell.address)?;
    push_hex(text, cell.word)?;
    text.push_str("\n")
}

// Appends the lines of the words in a tile's memory.
fn push_cells(
    text: &mut String,
    topo: &Topo,
    tile: u32,
    cells: &[DataWord],
) -> Result<(), AllocError>
    ensures { OnOk result (string_bytes text.new ≡ string_bytes text.old ++ written_lines (map (data_line topo.now.cols tile) cells.now)) }
{
    for cell in cells {
        push_cell(text, topo, tile, *cell)?;
    }
    Ok(())
}

// Appends a line of numbers of a tile's miss stream.
fn push_turns_line(
    text: &mut String,
    topo: &Topo,
    tile: u32,
    numbers: &[u8],
) -> Result<(), AllocError>
    ensures { OnOk result (string_bytes text.new ≡ string_bytes text.old ++ (turns_line topo.now.cols tile numbers.now ++ 10 ∷ [])) }
{
    text.push_str(Word::Misses.name())?;
    push_position(text, topo, tile)?;
    push_numbers(text, numbers)?;
    text.push_str("\n")
}

// Appends the lines of a tile's miss stream.
fn push_misses(text: &mut String, topo: &Topo, tile: u32, misses: &[u8]) -> Result<(), AllocError>
    ensures { OnOk result (string_bytes text.new ≡ string_bytes text.old ++ written_lines (misses_lines topo.now.cols tile misses.now)) }
{
    for piece in misses.chunks(MISSES_NUMBERS) {
        push_turns_line(text, topo, tile, piece)?;
    }
    Ok(())
}

// Appends the lines of what a tile is given beside programs.
fn push_memory(
    text: &mut String,
    topo: &Topo,
    tile: u32,
    given: &TileProg,
) -> Result<(), AllocError>
    ensures { OnOk result (string_bytes text.new ≡ string_bytes text.old ++ written_lines (memory_lines topo.now.cols (tile, given.now))) }
{
    push_cells(text, topo, tile, &given.cells)?;
    push_misses(text, topo, tile, &given.misses)?;
    Ok(())
}

// Appends the lines of what the tiles are given beside programs.
fn push_memories(text: &mut String, topo: &Topo, tiles: &[TileProg]) -> Result<(), AllocError>
    requires { length tiles.now ≤ MAX_TILES }
    ensures { OnOk result (string_bytes text.new ≡ string_bytes text.old ++ written_lines (flat_map (memory_lines topo.now.cols) (enumerate_from 0 tiles.now))) }
{
    for (tile, given) in tiles.iter().enumerate() {
        push_memory(text, topo, tile as u32, given)?;
    }
    Ok(())
}

// Appends the line of words that the report shows.
fn push_show(text: &mut String, topo: &Topo, show: Show) -> Result<(), AllocError>
    ensures { OnOk result (string_bytes text.new ≡ string_bytes text.old ++ (show_line topo.now.cols show ++ 10 ∷ [])) }
{
    text.push_str(Word::Show.name())?;
    push_position(text, topo, show.tile)?;
    push_hex(text, show.address)?;
    let words = show.words;
    write!(text, " {words}\n")
}

// Appends the lines of what the report shows.
fn push_shows(text: &mut String, topo: &Topo, shows: &[Show]) -> Result<(), AllocError>
    ensures { OnOk result (string_bytes text.new ≡ string_bytes text.old ++ written_lines (map (show_line topo.now.cols) shows.now)) }
{
    for show in shows {
        push_show(text, topo, *show)?;
    }
    Ok(())
}

// Appends the line of the depth, where it is not the one of a set without such a line.
#[tactic(auto, unfolding(raw_text::specs::Lines::written_lines))]
fn push_depth(text: &mut String, depth: u8) -> Result<(), AllocError>
    ensures { OnOk result (string_bytes text.new ≡ string_bytes text.old ++ written_lines (depth_lines depth)) }
{
    if depth == DEFAULT_DEPTH {
        return Ok(());
    }
    text.push_str(Word::Depth.name())?;
    write!(text, " {depth}\n")
}

// The first two lines.
#[tactic(auto, unfolding(raw_text::specs::Lines::written_lines))]
fn push_first(text: &mut String, topo: &Topo, limit: u32) -> Result<(), AllocError>
    ensures { OnOk result (string_bytes text.new ≡ string_bytes text.old ++ written_lines (first_lines topo.now limit)) }
{
    let columns = topo.cols();
    let rows = topo.rows();
    text.push_str(Word::Grid.name())?;
    write!(text, " {columns} {rows}\n")?;
    text.push_str(Word::Limit.name())?;
    write!(text, " {limit}\n")
}

// The lines before the sections.
fn front(alloc: Global, set: &Set) -> Result<String, AllocError>
    ensures { IfOk result (λ text. string_bytes text ≡ written_lines (front_lines set.now)) }
{
    let mut text = String::new(alloc);
    push_first(&mut text, &set.topo, set.limit)?;
    push_depth(&mut text, set.depth)?;
    push_ports(&mut text, &set.topo, &set.ports)?;
    push_feeds(&mut text, &set.topo, &set.ports)?;
    push_memories(&mut text, &set.topo, &set.tiles)?;
    push_shows(&mut text, &set.topo, &set.shows)?;
    Ok(text)
}

/// Lists the words of a set's sources: the `feed` lines of its listing.
pub fn list_feeds(alloc: Global, set: &Set) -> Result<String, AllocError>
    ensures { IfOk result (λ text. string_bytes text ≡ written_lines (source_lines set.now)) }
{
    let mut text = String::new(alloc);
    push_feeds(&mut text, &set.topo, &set.ports)?;
    Ok(text)
}

// The line that begins the section of a processor of this kind.
fn head(alloc: Global, word: Word, topo: &Topo, tile: u32) -> Result<String, AllocError>
    ensures { IfOk result (λ text. string_bytes text ≡ line_of word (position_texts topo.now.cols tile) ++ 10 ∷ []) }
{
    let mut text = String::new(alloc);
    text.push_str(word.name())?;
    push_position(&mut text, topo, tile)?;
    text.push_str("\n")?;
    Ok(text)
}

// Appends a section with these lines.
fn push_section(text: &mut Vec<u8>, head: &str, lines: &[u8]) -> Result<(), AllocError>
    ensures { OnOk result (text.new.items ≡ text.old.items ++ (head.now ++ (lines.now ++ (codes "end" ++ 10 ∷ [])))) }
{
    text.extend_from_slice(head.as_bytes())?;
    text.extend_from_slice(lines)?;
    text.extend_from_slice(b"end\n")
}

// Appends the section of a tile's program, where that is not empty.
fn push_code(
    alloc: Global,
    text: &mut Vec<u8>,
    topo: &Topo,
    tile: u32,
    code: &[TileIns],
) -> Result<(), AllocError>
    requires { length code.now ≤ MAX_TILE_CODE }
    ensures { OnOk result (text.new.items ≡ text.old.items ++ written_lines (section_lines word.Tile topo.now.cols tile (listed_lines 0 code.now))) }
{
    if code.is_empty() {
        return Ok(());
    }
    let head = head(alloc, Word::Tile, topo, tile)?;
    let lines = list_tile(alloc, code)?;
    push_section(text, &head, &lines)?;
    Ok(())
}

// Appends the section of a switch's program, where that is not empty.
fn push_switch_code(
    alloc: Global,
    text: &mut Vec<u8>,
    topo: &Topo,
    tile: u32,
    code: &[SwitchIns],
) -> Result<(), AllocError>
    requires { length code.now ≤ MAX_SWITCH_CODE }
    ensures { OnOk result (text.new.items ≡ text.old.items ++ written_lines (section_lines word.Switch topo.now.cols tile (map line_text code.now))) }
{
    if code.is_empty() {
        return Ok(());
    }
    let head = head(alloc, Word::Switch, topo, tile)?;
    let lines = list_switch(alloc, code)?;
    push_section(text, &head, &lines)?;
    Ok(())
}

// Appends the sections of a tile.
fn push_programs(
    alloc: Global,
    text: &mut Vec<u8>,
    topo: &Topo,
    tile: u32,
    given: &TileProg,
) -> Result<(), AllocError>
    requires few { length given.now.code ≤ MAX_TILE_CODE }
    requires few_switch { length given.now.switch ≤ MAX_SWITCH_CODE }
    ensures { OnOk result (text.new.items ≡ text.old.items ++ written_lines (program_lines topo.now.cols (tile, given.now))) }
{
    push_code(alloc, text, topo, tile, &given.code)?;
    push_switch_code(alloc, text, topo, tile, &given.switch)?;
    Ok(())
}

/// The listing of a set: the text that `read_set` reads back as the same set.
///
/// Its order is `grid`, `limit`, `depth` where it is not `DEFAULT_DEPTH`, the ports, the words of the sources, the
/// memories and miss streams tile by tile, the shown words, and the sections of each tile and its switch.
/// Words and addresses are `0x` and eight lower case digits, and all other numbers are decimal. Want of
/// memory is the one refusal.
pub fn list_set(alloc: Global, set: &Set) -> Result<Vec<u8>, AllocError>
    ensures { IfOk result (λ text. text.items ≡ listing set.now) }
{
    let front = front(alloc, set)?;
    let mut text = front.into_bytes();
    for (tile, given) in set.tiles.iter().enumerate() {
        push_programs(alloc, &mut text, &set.topo, tile as u32, given)?;
    }
    Ok(text)
}
