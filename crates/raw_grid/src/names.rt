//! The names that the parts of a grid have in texts, and the numbers that they have in images.
ghost use Rattle.std.specs.Prelude.{◌≡◌};
ghost use Rattle.raw_grid.specs.Names.{net_number, net_text, net_with, net_named, side_number, side_text, side_with, side_named, dir_text, dir_named, kind_number, kind_text, kind_with, kind_named, end_text, end_named};

use crate::parts::{Dir, End, Net, PortKind, Side};

impl Net {
    /// The networks by their numbers.
    pub const ALL: [Net; 2] = [Net::One, Net::Two];

    /// The number of the network, 1 or 2.
    pub fn number(self) -> u8
        ensures { result ≡ net_number self }
    {
        match self {
            Net::One => 1,
            Net::Two => 2,
        }
    }

    /// The network with this number.
    #[tactic(auto, unfolding(crate::specs::Names::net_with))]
    pub fn with_number(number: u8) -> Option<Net>
        ensures { result ≡ net_with number }
    {
        Net::ALL.iter().copied().find(|net| net.number() == number)
    }

    /// The name of the network, `1` or `2`.
    pub fn text(self) -> &'static str
        ensures { result.now ≡ net_text self }
    {
        match self {
            Net::One => "1",
            Net::Two => "2",
        }
    }

    /// The network with this name.
    #[tactic(auto, unfolding(crate::specs::Names::net_named))]
    pub fn named(name: &[u8]) -> Option<Net>
        ensures { result ≡ net_named name.now }
    {
        Net::ALL
            .iter()
            .copied()
            .find(|net| net.text().as_bytes() == name)
    }
}

impl Side {
    /// The sides by their numbers, which is the order in which links are numbered.
    pub const ALL: [Side; 4] = [Side::N, Side::E, Side::S, Side::W];

    /// The number of the side: its place in N, E, S, W, from 0.
    pub fn number(self) -> u8
        ensures { result ≡ side_number self }
    {
        match self {
            Side::N => 0,
            Side::E => 1,
            Side::S => 2,
            Side::W => 3,
        }
    }

    /// The side with this number.
    #[tactic(auto, unfolding(crate::specs::Names::side_with))]
    pub fn with_number(number: u8) -> Option<Side>
        ensures { result ≡ side_with number }
    {
        Side::ALL
            .iter()
            .copied()
            .find(|side| side.number() == number)
    }

    /// The name of the side: its letter, in upper case.
    pub fn text(self) -> &'static str
        ensures { result.now ≡ side_text self }
    {
        match self {
            Side::N => "N",
            Side::E => "E",
            Side::S => "S",
            Side::W => "W",
        }
    }

    /// The side with this name.
    #[tactic(auto, unfolding(crate::specs::Names::side_named))]
    pub fn named(name: &[u8]) -> Option<Side>
        ensures { result ≡ side_named name.now }
    {
        Side::ALL
            .iter()
            .copied()
            .find(|side| side.text().as_bytes() == name)
    }
}

impl Dir {
    /// The directions in the order of the indices of their ends.
    pub const ALL: [Dir; 5] = [Dir::N, Dir::E, Dir::S, Dir::W, Dir::P];

    /// The name of the direction: its letter, in upper case.
    pub fn text(self) -> &'static str
        ensures { result.now ≡ dir_text self }
    {
        match self {
            Dir::N => "N",
            Dir::E => "E",
            Dir::S => "S",
            Dir::W => "W",
            Dir::P => "P",
        }
    }

    /// The direction with this name.
    #[tactic(auto, unfolding(crate::specs::Names::dir_named))]
    pub fn named(name: &[u8]) -> Option<Dir>
        ensures { result ≡ dir_named name.now }
    {
        Dir::ALL
            .iter()
            .copied()
            .find(|dir| dir.text().as_bytes() == name)
    }
}

impl PortKind {
    /// The kinds by their numbers.
    pub const ALL: [PortKind; 2] = [PortKind::Source, PortKind::Sink];

    /// The number of the kind, 0 or 1.
    pub fn number(self) -> u8
        ensures { result ≡ kind_number self }
    {
        match self {
            PortKind::Source => 0,
            PortKind::Sink => 1,
        }
    }

    /// The kind with this number.
    #[tactic(auto, unfolding(crate::specs::Names::kind_with))]
    pub fn with_number(number: u8) -> Option<PortKind>
        ensures { result ≡ kind_with number }
    {
        PortKind::ALL
            .iter()
            .copied()
            .find(|kind| kind.number() == number)
    }

    /// The name of the kind, in lower case.
    pub fn text(self) -> &'static str
        ensures { result.now ≡ kind_text self }
    {
        match self {
            PortKind::Source => "source",
            PortKind::Sink => "sink",
        }
    }

    /// The kind with this name.
    #[tactic(auto, unfolding(crate::specs::Names::kind_named))]
    pub fn named(name: &[u8]) -> Option<PortKind>
        ensures { result ≡ kind_named name.now }
    {
        PortKind::ALL
            .iter()
            .copied()
            .find(|kind| kind.text().as_bytes() == name)
    }
}

impl End {
    /// The name of the end: its network, `:` and the letter of its direction, as `1:W`.
    pub fn text(self) -> &'static str
        ensures { result.now ≡ end_text self }
    {
        match (self.net, self.dir) {
            (Net::One, Dir::N) => "1:N",
            (Net::One, Dir::E) => "1:E",
            (Net::One, Dir::S) => "1:S",
            (Net::One, Dir::W) => "1:W",
            (Net::One, Dir::P) => "1:P",
            (Net::Two, Dir::N) => "2:N",
            (Net::Two, Dir::E) => "2:E",
            (Net::Two, Dir::S) => "2:S",
            (Net::Two, Dir::W) => "2:W",
            (Net::Two, Dir::P) => "2:P",
        }
    }

    /// The end with this name.
    #[tactic(auto, unfolding(crate::specs::Names::end_named))]
    pub fn named(name: &[u8]) -> Option<End>
        ensures { result ≡ end_named name.now }
    {
        End::ALL
            .iter()
            .copied()
            .find(|end| end.text().as_bytes() == name)
    }
}
