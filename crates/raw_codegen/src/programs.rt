//! The programs of all tiles and switches, while they are made.
ghost use Rattle.std.specs.Prelude.{◌≡◌, ◌↔◌, ℕ, ◌+◌, ◌<◌, List, [], ◌∷◌, length, IfOk, OnOk, OnErr, Err, IsTrue};
ghost use Rattle.raw_tile_isa.specs.Load.{load};
ghost use Rattle.raw_tile_isa.specs.Made as tile;
ghost use Rattle.raw_switch_isa.specs.Made as switch;
ghost use Rattle.raw_codegen.specs.Parts.{Part, ToTile, ToSwitch, to_tile, programs_of, Gives, script_programs, halts_to};
ghost use Rattle.raw_codegen.specs.Limits.{IsShort, AreShort, Overflows};

use raw_model::TileProg;
use raw_model::limits::{MAX_ALL_CODE, MAX_ALL_SWITCH_CODE};
use raw_switch_isa::{MAX_SWITCH_CODE, SwitchIns};
use raw_tile_isa::{MAX_TILE_CODE, TileIns, li};
use std::alloc::{AllocError, Global};
use std::marker::Model;

/// Why an instruction was not given, or programs were not made.
#[derive(Clone, Copy, Drop, PartialEq, Eq)]
pub enum GiveRefusal {
    /// With it and `halt` a program would be longer than a set allows, or all together.
    TooMany,
    Memory,
}

impl From<AllocError> for GiveRefusal {
    ghost use Rattle.std.specs.Prelude.{◌≡◌};
    ghost use Rattle.raw_codegen.specs.declared.programs.GiveRefusal.TheVariants.{Memory};

    ghost from_gives = { λ _ refusal. refusal ≡ Memory };

    fn from(_: AllocError) -> Self {
        GiveRefusal::Memory
    }
}

// Gives a tile one more instruction, if it is there.
fn push_tile(tiles: &mut Vec<TileProg>, tile: usize, ins: TileIns) -> Result<(), AllocError>
    ensures gives { (n : ℕ) → OnOk result (Gives n (ToTile tile ins ∷ []) tiles.old.items tiles.new.items) }
    ensures err { OnErr result (tiles.new.items ≡ tiles.old.items) }
{
    if tile < tiles.len() {
        tiles[tile].code.push(ins)?;
    }
    Ok(())
}

// Gives the switch beside a tile one more instruction, if the tile is there.
fn push_switch(tiles: &mut Vec<TileProg>, tile: usize, ins: SwitchIns) -> Result<(), AllocError>
    ensures gives { (n : ℕ) → OnOk result (Gives n (ToSwitch tile ins ∷ []) tiles.old.items tiles.new.items) }
    ensures err { OnErr result (tiles.new.items ≡ tiles.old.items) }
{
    if tile < tiles.len() {
        tiles[tile].switch.push(ins)?;
    }
    Ok(())
}

// Gives each tile and each switch its `halt`.
fn push_halts(tiles: &mut Vec<TileProg>) -> Result<(), AllocError>
    ensures { (n : ℕ) → OnOk result (Gives n (halts_to (length tiles.old.items)) tiles.old.items tiles.new.items) }
{
    for tile in 0..tiles.len() {
        push_tile(tiles, tile, TileIns::halt())?;
        push_switch(tiles, tile, SwitchIns::halt())?;
    }
    Ok(())
}

// Empty programs for so many tiles.
fn blank(alloc: Global, count: u32) -> Result<Vec<TileProg>, AllocError>
    ensures { IfOk result (λ tiles. tiles.items ≡ programs_of count []) }
{
    let mut tiles = Vec::new(alloc);
    for _ in 0..count {
        tiles.push(TileProg {
            code: Vec::new(alloc),
            switch: Vec::new(alloc),
            cells: Vec::new(alloc),
            misses: Vec::new(alloc),
        })?;
    }
    Ok(tiles)
}

// Whether the programs of a tile and of its switch are within the limits of a set.
fn is_short(tile: &TileProg) -> bool
    ensures { IsTrue result ↔ IsShort tile.now }
{
    tile.code.len() <= MAX_TILE_CODE && tile.switch.len() <= MAX_SWITCH_CODE
}

// Whether all programs are, each and together.
fn are_short(tiles: &[TileProg]) -> bool
    ensures { IsTrue result ↔ AreShort tiles.now }
{
    let (mut code, mut switch) = (0, 0);
    for tile in tiles {
        if !is_short(tile) {
            return false;
        }
        code += tile.code.len() as u32;
        switch += tile.switch.len() as u32;
        if code > MAX_ALL_CODE || switch > MAX_ALL_SWITCH_CODE {
            return false;
        }
    }
    true
}

/// The programs of the tiles of a grid and of their switches, while parts are given to them. What is given to a tile that
/// is not there is given to none. Contracts see the list of the programs.
#[derive(Drop)]
pub struct Programs {
    tiles: Vec<TileProg>,
}

impl Model for Programs {
    ghost use Rattle.std.specs.Prelude.{List};
    ghost use Rattle.raw_model.specs.Program.{TileProgram};

    ghost Value = { List TileProgram };

    ghost view = { λ programs. programs.tiles.items };
}

impl Programs {
    /// Those of so many tiles, to which nothing has been given.
    pub fn new(alloc: Global, count: u32) -> Result<Programs, AllocError>
        ensures { IfOk result (λ programs. programs ≡ programs_of count []) }
    {
        Ok(Programs {
            tiles: blank(alloc, count)?,
        })
    }

    /// Gives a tile one more instruction. `TooMany` is that the tile's program would then have no place left for its
    /// `halt`.
    pub fn give_tile(&mut self, tile: u32, ins: TileIns) -> Result<(), GiveRefusal>
        ensures gives { (n : ℕ) → OnOk result (Gives n (ToTile tile ins ∷ []) self.old self.new) }
        ensures too_many { (n : ℕ) → result ≡ Err GiveRefusal.TooMany → Overflows n (ToTile tile ins ∷ []) self.old }
        ensures err { OnErr result (self.new ≡ self.old) }
    {
        let tile = tile as usize;
        if tile < self.tiles.len() && self.tiles[tile].code.len() + 1 >= MAX_TILE_CODE {
            return Err(GiveRefusal::TooMany);
        }
        push_tile(&mut self.tiles, tile, ins)?;
        Ok(())
    }

    /// Gives the switch beside a tile one more instruction. `TooMany` is that the switch's program would then
    /// have no place left for its `halt`.
    pub fn give_switch(&mut self, tile: u32, ins: SwitchIns) -> Result<(), GiveRefusal>
        ensures gives { (n : ℕ) → OnOk result (Gives n (ToSwitch tile ins ∷ []) self.old self.new) }
        ensures too_many { (n : ℕ) → result ≡ Err GiveRefusal.TooMany → Overflows n (ToSwitch tile ins ∷ []) self.old }
        ensures err { OnErr result (self.new ≡ self.old) }
    {
        let tile = tile as usize;
        if tile < self.tiles.len() && self.tiles[tile].switch.len() + 1 >= MAX_SWITCH_CODE {
            return Err(GiveRefusal::TooMany);
        }
        push_switch(&mut self.tiles, tile, ins)?;
        Ok(())
    }

    /// Gives a tile the instructions that load a word into a register, `li $r, W`.
    pub fn give_load(&mut self, tile: u32, register: u8, word: u32) -> Result<(), GiveRefusal>
        requires { register < 32 }
        ensures gives { (n : ℕ) → OnOk result (Gives n (to_tile tile (load register word)) self.old self.new) }
        ensures too_many { (n : ℕ) → result ≡ Err GiveRefusal.TooMany → Overflows n (to_tile tile (load register word)) self.old }
    {
        let (first, second) = li(register, word);
        self.give_tile(tile, first)?;
        if let Some(second) = second {
            self.give_tile(tile, second)?;
        }
        Ok(())
    }

    /// The whole programs, each with `halt` at its end. `TooMany` is that all together are longer than a set
    /// allows.
    pub fn finish(self) -> Result<Vec<TileProg>, GiveRefusal>
        ensures tiles { (n : ℕ) (parts : List Part) → self ≡ programs_of n parts →
            IfOk result (λ tiles. tiles.items ≡ script_programs n parts) }
        ensures short { IfOk result (λ tiles. AreShort tiles.items) }
        ensures too_many { (n : ℕ) (parts : List Part) → self ≡ programs_of n parts →
            result ≡ Err GiveRefusal.TooMany → ¬ (AreShort (script_programs n parts)) }
    {
        let mut tiles = self.tiles;
        push_halts(&mut tiles)?;
        if !are_short(&tiles) {
            return Err(GiveRefusal::TooMany);
        }
        Ok(tiles)
    }
}
