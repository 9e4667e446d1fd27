/// How many lanes a made script has.
pub const MADE_LANES: u32 = 4;

/// How many commands a lane of a made script has behind the two that open its cursors.
pub const MADE_COMMANDS: u32 = 40;

/// How many audio packets a link of a made film has.
pub const MADE_PACKETS: usize = 1300;

/// How many audio packets stand on a page of a made film.
pub const PACKETS_ON_PAGE: usize = 10;

/// How many values a short block of a made film has.
pub const MADE_SHORT: u32 = 64;

/// How many values a long block of a made film has.
pub const MADE_LONG: u32 = 256;
