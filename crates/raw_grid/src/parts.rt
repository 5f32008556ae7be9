//! The parts of a grid: numbers of processors and wires, networks, sides, ports and ends.
ghost use Rattle.std.specs.Prelude.{◌≡◌, ◌<◌};
ghost use Rattle.raw_grid.specs.Ends.{dir_index, end_index, side_dir, opposite};

/// A processor by its number. On a grid of `C` columns and `n` tiles, the tile in column `x` and
/// row `y` is `y*C + x`, the switch beside tile `t` is `n + t`, and port `i` of the list is
/// `2n + i`.
#[derive(Clone, Copy, PartialEq, Eq, PartialOrd, Ord)]
pub struct ProcId(pub u32);

/// A wire by its number. Wires `4t` to `4t + 3` join tile `t` and its switch: to the tile on
/// network 1 and 2, and to the switch on network 1 and 2. Then come the links of network 1 and
/// those of network 2, in each by the number of the tile that they leave and there by the side N,
/// E, S, W, and then the wires of the ports in the order of the list.
#[derive(Clone, Copy, PartialEq, Eq, PartialOrd, Ord)]
pub struct WireId(pub u32);

/// One of the two static networks.
#[derive(Clone, Copy, PartialEq, Eq)]
pub enum Net {
    One,
    Two,
}

impl Net {
    /// The index of the end in a direction, 0 to 9.
    pub fn end(self, dir: Dir) -> u8
        ensures index { result ≡ end_index self dir }
        ensures few { result < 10 }
    {
        match self {
            Net::One => dir.index(),
            Net::Two => 5 + dir.index(),
        }
    }
}

/// A side of a tile: north is towards row 0, and west towards column 0.
#[derive(Clone, Copy, PartialEq, Eq)]
pub enum Side {
    N,
    E,
    S,
    W,
}

impl Side {
    /// The side on which the neighbour at this side sees the tile.
    pub fn opposite(self) -> Self
        ensures { result ≡ opposite self }
    {
        match self {
            Side::N => Side::S,
            Side::E => Side::W,
            Side::S => Side::N,
            Side::W => Side::E,
        }
    }
}

/// A direction of a switch's ends: a side, or `P`, the tile beside the switch.
#[derive(Clone, Copy, PartialEq, Eq)]
pub enum Dir {
    N,
    E,
    S,
    W,
    P,
}

impl Dir {
    /// The place of the direction in N, E, S, W, P, from 0.
    pub fn index(self) -> u8
        ensures index { result ≡ dir_index self }
        ensures few { result < 5 }
    {
        match self {
            Dir::N => 0,
            Dir::E => 1,
            Dir::S => 2,
            Dir::W => 3,
            Dir::P => 4,
        }
    }
}

impl From<Side> for Dir {
    ghost from_gives = { λ side dir. dir ≡ side_dir side };

    fn from(side: Side) -> Self {
        match side {
            Side::N => Dir::N,
            Side::E => Dir::E,
            Side::S => Dir::S,
            Side::W => Dir::W,
        }
    }
}

/// An end of a switch: a direction on a network. A tile has the ends in direction P alone, a port the
/// one in direction P of its network.
#[derive(Clone, Copy, PartialEq, Eq)]
pub struct End {
    pub net: Net,
    pub dir: Dir,
}

impl End {
    /// The ends by their indices.
    pub const ALL: [End; 10] = [
        End {
            net: Net::One,
            dir: Dir::N,
        },
        End {
            net: Net::One,
            dir: Dir::E,
        },
        End {
            net: Net::One,
            dir: Dir::S,
        },
        End {
            net: Net::One,
            dir: Dir::W,
        },
        End {
            net: Net::One,
            dir: Dir::P,
        },
        End {
            net: Net::Two,
            dir: Dir::N,
        },
        End {
            net: Net::Two,
            dir: Dir::E,
        },
        End {
            net: Net::Two,
            dir: Dir::S,
        },
        End {
            net: Net::Two,
            dir: Dir::W,
        },
        End {
            net: Net::Two,
            dir: Dir::P,
        },
    ];

    /// The index of the end: 0 to 4 are N, E, S, W, P of network 1, and 5 to 9 those of network 2.
    pub fn index(self) -> u8
        ensures index { result ≡ end_index self.net self.dir }
        ensures few { result < 10 }
    {
        self.net.end(self.dir)
    }

    /// The end with this index.
    pub fn with_index(index: usize) -> End
        requires { index < 10 }
        ensures { end_index result.net result.dir ≡ index }
    {
        End::ALL[index]
    }
}

/// Whether a processor takes values from a wire or sends them on it.
#[derive(Clone, Copy, PartialEq, Eq)]
pub enum Way {
    In,
    Out,
}

/// Whether a port puts words into the grid or takes them out.
#[derive(Clone, Copy, PartialEq, Eq)]
pub enum PortKind {
    Source,
    Sink,
}

/// Where a port stands: at a side of the tile in column `x` and row `y`, on one network.
#[derive(Clone, Copy, PartialEq, Eq)]
pub struct PortPlace {
    pub kind: PortKind,
    pub net: Net,
    pub x: u8,
    pub y: u8,
    pub side: Side,
}

/// What a processor is.
#[derive(Clone, Copy, PartialEq, Eq)]
pub enum ProcKind {
    Tile,
    Switch,
    Source,
    Sink,
}

/// The end at the other side of a wire: whose it is, and its index, 0 to 9.
#[derive(Clone, Copy, PartialEq, Eq)]
pub struct OtherEnd {
    pub proc: ProcId,
    pub end: u8,
}

/// The ends of a switch that have a wire. Bit 0 to 9 of a field stands for N, E, S, W, P of
/// network 1 and then of network 2.
#[derive(Clone, Copy, PartialEq, Eq)]
pub struct Ends {
    pub inputs: u16,
    pub outputs: u16,
}
