// How the drawing shows each thing, once for the thing and for the legend.

pub const CLB: &str = "fill=\"#f1f4ee\" stroke=\"#c3cabd\"";

pub const RAM: &str = "fill=\"#a9c9ee\" stroke=\"#1f4e86\"";

pub const MULTIPLIER: &str = "fill=\"#e0973f\" stroke=\"#6b3d00\"";

// The whole chip, in the colour of a RAM or multiplier column's rows without a block.
pub const NO_BLOCK: &str = "fill=\"#ffffff\" stroke=\"#888888\"";

pub const REGION: &str =
    "fill=\"#000000\" fill-opacity=\"0.1\" stroke=\"#111111\" stroke-width=\"3\"";

pub const OUTER: &str =
    "fill=\"none\" stroke=\"#7a00a8\" stroke-width=\"2\" stroke-dasharray=\"9 5\"";

// A block that is cut: what the region has of it, the whole block's edge, and both for the legend.
pub const CUT: &str = "fill=\"url(#cut)\"";

pub const CUT_EDGE: &str = "fill=\"none\" stroke=\"#c00020\" stroke-width=\"3\"";

pub const CUT_WHOLE: &str = "fill=\"url(#cut)\" stroke=\"#c00020\" stroke-width=\"3\"";

// The ground of a region's name.
pub const NAME: &str = "fill=\"#ffffff\" fill-opacity=\"0.85\"";
