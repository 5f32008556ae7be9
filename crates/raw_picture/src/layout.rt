//! The measures of a picture, in pixels, each once. A definition cites them by name, from
//! `Rattle.raw_picture.specs.declared.layout.TheConstants`.
//!
//! The box of a tile stands at the corner of its cell, and that of its switch below it, somewhat to the right.
//! Channels run from box to box: from a tile down to its switch, and from a switch to its neighbours and ports.

/// How far the corner of the first cell lies to the right of the origin.
pub(crate) const FIRST_X: u32 = 252;

/// How far the corner of the first cell lies below the origin.
pub(crate) const FIRST_Y: u32 = 192;

/// How far the corners of neighbours lie apart from west to east.
pub(crate) const COLUMN: u32 = 264;

/// How far the corners of neighbours lie apart from north to south.
pub(crate) const ROW: u32 = 280;

/// How wide one of the four lanes of a channel is.
pub(crate) const LANE: u32 = 21;

/// How wide the two lanes of a network are.
pub(crate) const NETWORK: u32 = 2 * LANE;

/// How wide a channel is.
pub(crate) const CHANNEL: u32 = 2 * NETWORK;

/// How long a channel is from a tile to its switch, to a neighbour in the east or west, and to a port there. None is
/// shorter.
pub(crate) const SHORT: u32 = 84;

/// How long a channel is to a neighbour in the north or south.
pub(crate) const LONG: u32 = ROW - BOX_HEIGHT;

/// How far the cell of a tile begins to the left of its corner, and above it.
pub(crate) const CELL_EDGE: u32 = 8;

/// How much lies between the cells of neighbours.
pub(crate) const CELL_GAP: u32 = 12;

/// How wide the cell of a tile is.
pub(crate) const CELL_WIDTH: u32 = COLUMN - CELL_GAP;

/// How high the cell of a tile is.
pub(crate) const CELL_HEIGHT: u32 = ROW - CELL_GAP;

/// How high the box of a tile or a switch is.
pub(crate) const BOX_HEIGHT: u32 = 84;

/// How wide the box of a tile is.
pub(crate) const TILE_WIDTH: u32 = 140;

/// How wide the box of a switch is.
pub(crate) const SWITCH_WIDTH: u32 = 180;

/// How far the box of a switch begins to the right of the corner of its cell.
pub(crate) const SWITCH_LEFT: u32 = 52;

/// How far the box of a switch begins below the corner of its cell, and so the channels to its sides.
pub(crate) const SWITCH_TOP: u32 = BOX_HEIGHT + SHORT;

/// How far the box of a switch ends to the right of the corner of its cell, where channels to the east begin.
pub(crate) const SWITCH_RIGHT: u32 = SWITCH_LEFT + SWITCH_WIDTH;

/// How far the box of a switch ends below the corner of its cell, where channels to the south begin.
pub(crate) const SWITCH_BOTTOM: u32 = SWITCH_TOP + BOX_HEIGHT;

/// How far the channel from a tile to its switch begins to the right of the corner.
pub(crate) const DOWN_LEFT: u32 = 54;

/// How far a channel to the north or south begins to the right of the corner.
pub(crate) const SOUTH_LEFT: u32 = 146;

/// How far a channel to the west begins to the left of the corner: at the switch there.
pub(crate) const WEST_START: u32 = COLUMN - SWITCH_RIGHT;

/// How far a channel to the neighbour in the north begins above the corner: at the switch there.
pub(crate) const NORTH_START: u32 = ROW - SWITCH_BOTTOM;

/// How much of a lane is free at each side of its ground.
pub(crate) const LANE_EDGE: u32 = 2;

/// How far the ground of the first lane of a channel begins below the corner, at the west and the east.
pub(crate) const LANES_TOP: u32 = SWITCH_TOP + LANE_EDGE;

/// How far the ground of the first lane of a channel begins to the right of the corner, at the north and the south.
pub(crate) const LANES_LEFT: u32 = SOUTH_LEFT + LANE_EDGE;

/// How wide the ground of a lane to a port is, and how high the box of the port.
pub(crate) const PORT_HEIGHT: u32 = LANE - 2 * LANE_EDGE;

/// How wide the box of a port is.
pub(crate) const PORT_WIDTH: u32 = 196;

/// How far the box of a port in the west begins to the left of the corner: at the end of its channel.
pub(crate) const WEST_PORT: u32 = WEST_START + PORT_WIDTH;

/// How far the box of a port in the east begins to the right of the corner: at the end of its channel.
pub(crate) const EAST_PORT: u32 = SWITCH_RIGHT + SHORT;

/// How far the box of a port in the north or south begins to the left of the corner where its lane is the first: it
/// ends where the ground of its lane does.
pub(crate) const PORT_LEFT: u32 = PORT_WIDTH - (LANES_LEFT + PORT_HEIGHT);

/// How far the box of a port in the north ends above the corner where its lane is the first.
pub(crate) const NORTH_GAP: u32 = 12;

/// How far the box of a port in the north begins above the corner where its lane is the first.
pub(crate) const NORTH_PORT: u32 = NORTH_GAP + PORT_HEIGHT;

/// How long the channel of a port in the north is where its lane is the first: from NORTH_GAP above the corner to its
/// switch.
pub(crate) const NORTH_LENGTH: u32 = NORTH_GAP + SWITCH_TOP;

/// How far the box of a port in the south begins below the corner where its lane is the first.
pub(crate) const SOUTH_PORT: u32 = SWITCH_BOTTOM + SHORT;

/// Where the arrow of a wire runs in its lane.
pub(crate) const WIRE_TRACK: u32 = 5;

/// Where the arrow of a wait runs in its lane.
pub(crate) const WAIT_TRACK: u32 = 16;

/// How far the middle of a tag lies from the beginning of its course.
pub(crate) const MIDDLE: u32 = SHORT / 2;

/// How long the box of a tag is, along its course.
pub(crate) const TAG_LENGTH: u32 = 56;

/// How wide the box of a tag is, across its course.
pub(crate) const TAG_WIDTH: u32 = 12;

/// How far the box of a tag begins before the middle of its course.
pub(crate) const TAG_BEFORE: u32 = TAG_LENGTH / 2;

/// How far the box of a tag begins beside its course.
pub(crate) const TAG_BESIDE: u32 = TAG_WIDTH / 2;

/// How much is free at the edges of a picture.
pub(crate) const MARGIN: u32 = 24;

/// How much is free above, for the lines that say what the picture shows.
pub(crate) const HEAD: u32 = 100;

/// Where a picture begins from the left where no port is in the west.
pub(crate) const NO_WEST: u32 = FIRST_X - CELL_EDGE - MARGIN;

/// Where a picture begins from above where no port is in the north.
pub(crate) const NO_NORTH: u32 = FIRST_Y - CELL_EDGE - HEAD;

/// How far a picture goes on to the right of its last column where ports are in the east.
pub(crate) const TO_EAST: u32 = EAST_PORT + PORT_WIDTH + MARGIN - COLUMN;

/// How far a picture goes on to the right of its last column where no port is in the east.
pub(crate) const NO_EAST: u32 = CELL_WIDTH - CELL_EDGE + MARGIN - COLUMN;

/// How far a picture goes on below its last row, with the legend, where ports are in the south.
pub(crate) const TO_SOUTH: u32 = SOUTH_PORT + 3 * LANE + PORT_HEIGHT + MARGIN + LEGEND_HEIGHT - ROW;

/// How far a picture goes on below its last row, with the legend, where no port is in the south.
pub(crate) const NO_SOUTH: u32 = CELL_HEIGHT - CELL_EDGE + MARGIN + LEGEND_HEIGHT - ROW;

/// How wide a picture is at least, so that the legend has room.
pub(crate) const LEAST_WIDTH: u32 = 460;

/// How far the legend begins above the bottom.
pub(crate) const LEGEND_HEIGHT: u32 = 84;

/// How far the arrows of the legend begin to the right of the left edge.
pub(crate) const LEGEND_LEFT: u32 = MARGIN;

/// How far the texts of the legend begin to the right of the left edge.
pub(crate) const LEGEND_TEXT: u32 = 120;
