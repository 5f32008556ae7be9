//! Reading an image.
ghost use Rattle.std.specs.Prelude.{◌≡◌, ℕ, IfOk, IfErr};
ghost use Rattle.raw_model.specs.Program.{ProgramSet, IsSet};
ghost use Rattle.raw_image.specs.declared.kind.ImageKind.{ImageKind};
ghost use Rattle.raw_image.specs.Fields.{Gives};
ghost use Rattle.raw_image.specs.Answers.{set_with, IsAnswer, IsRefused, IsRefusal};
ghost use Rattle.raw_image.specs.Reading.{magic_at, version_at, depth_at, set_at, reading};
ghost use Rattle.raw_image.specs.Image.{Image, ImageFault};

use crate::fields::{byte_between, fault_at, front_at, number_between, word_at, zeros_at};
use crate::kind::{ImageKind, ImageRefusal};
use crate::laws::law_reading;
use crate::ports::{PortList, ports_at};
use crate::refused::Refusal;
use crate::shows::shows_at;
use crate::tiles::tiles_at;
use crate::version::{VERSION_1_DEPTH, Version};
use raw_grid::{MAX_SIZE, Topo};
use raw_model::limits::{MAX_DEPTH, MAX_STEPS};
use raw_model::{PortProg, Set, Show, TileProg};
use std::alloc::Global;

/// What is read of a set, each field as it was tested.
#[derive(Drop)]
struct Parts {
    topo: Topo,
    limit: u32,
    depth: u8,
    ports: Vec<PortProg>,
    tiles: Vec<TileProg>,
    shows: Vec<Show>,
}

// The bytes behind the magic.
fn magic_at(bytes: &[u8]) -> Result<&[u8], Refusal>
    ensures { Gives (λ x. x.now) result (magic_at bytes.now) }
{
    let (magic, rest) = front_at(bytes, 4)?;
    if magic == b"RAWT".as_slice() {
        Ok(rest)
    } else {
        Err(fault_at(ImageKind::BadMagic, bytes))
    }
}

// The version.
fn version_at(bytes: &[u8]) -> Result<(Version, &[u8]), Refusal>
    ensures { Gives (λ x. (x.0, x.1.now)) result (version_at bytes.now) }
{
    let (number, rest) = word_at(bytes)?;
    match number {
        1 => Ok((Version::One, rest)),
        2 => Ok((Version::Two, rest)),
        _ => Err(fault_at(ImageKind::BadVersion, bytes)),
    }
}

// The depth of wires.
fn depth_at(version: Version, bytes: &[u8]) -> Result<(u8, &[u8]), Refusal>
    ensures { Gives (λ x. (x.0, x.1.now)) result (depth_at version bytes.now) }
{
    match version {
        Version::One => {
            let rest = zeros_at(bytes, 2)?;
            Ok((VERSION_1_DEPTH, rest))
        }
        Version::Two => {
            let (depth, rest) = byte_between(bytes, 1, MAX_DEPTH)?;
            let rest = zeros_at(rest, 1)?;
            Ok((depth, rest))
        }
    }
}

// The fields behind the version.
#[tactic(auto, unfolding(crate::specs::Reading::set_at))]
fn parts_at(alloc: Global, version: Version, bytes: &[u8]) -> Result<(Parts, &[u8]), Refusal>
    ensures { Gives (λ x. (set_with x.0, x.1.now)) result (set_at version bytes.now) }
{
    let (columns, rest) = byte_between(bytes, 1, MAX_SIZE)?;
    let (rows, rest) = byte_between(rest, 1, MAX_SIZE)?;
    let (depth, rest) = depth_at(version, rest)?;
    let (limit, rest) = number_between(rest, 1, MAX_STEPS)?;
    let (list, rest) = ports_at(alloc, columns, rows, rest)?;
    let PortList { topo, programs, .. } = list;
    let (tiles, rest) = tiles_at(alloc, version, &topo, rest)?;
    let (shows, rest) = shows_at(alloc, topo.tiles(), rest)?;
    let parts = Parts {
        topo,
        limit,
        depth,
        ports: programs,
        tiles,
        shows,
    };
    Ok((parts, rest))
}

// What all bytes say.
#[tactic(auto, unfolding(crate::specs::Reading::reading))]
fn whole(alloc: Global, bytes: &[u8]) -> Result<Parts, Refusal>
    ensures { Gives set_with result (reading bytes.now) }
{
    let rest = magic_at(bytes)?;
    let (version, rest) = version_at(rest)?;
    let (parts, rest) = parts_at(alloc, version, rest)?;
    if rest.is_empty() {
        Ok(parts)
    } else {
        Err(fault_at(ImageKind::Extra, rest))
    }
}

// The set of what was read.
fn set_of(parts: Parts) -> Set
    requires { IsSet (set_with parts) }
    ensures { result ≡ set_with parts }
{
    let Parts {
        topo,
        limit,
        depth,
        ports,
        tiles,
        shows,
    } = parts;
    Set {
        topo,
        limit,
        depth,
        ports,
        tiles,
        shows,
    }
}

/// The set whose image, in version 1 or 2, these bytes are.
///
/// It goes over the bytes once, field by field, and takes memory in proportion to the set. A refusal is the
/// first fault in the order of the fields, or want of memory.
pub fn read_image(alloc: Global, bytes: &[u8]) -> Result<Set, ImageRefusal>
    ensures image { IfOk result (Image bytes.now) }
    ensures cause { IfErr result (IsRefusal bytes.now) }
    ensures exactly { (set : ProgramSet) → Image bytes.now set → IsAnswer result set }
    ensures refused { (offset : ℕ) (kind : ImageKind) → ImageFault bytes.now offset kind → IsRefused result offset kind }
{
    law_reading();
    match whole(alloc, bytes) {
        Ok(parts) => Ok(set_of(parts)),
        Err(Refusal::At(fault)) => Err(ImageRefusal::At {
            offset: (bytes.len() - fault.left) as u64,
            kind: fault.kind,
        }),
        Err(Refusal::Memory) => Err(ImageRefusal::Memory),
    }
}
