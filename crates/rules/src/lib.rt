// The words of the planner: the types that its rules and its code share. The rules themselves are in specs/, in the order
// of the scope document; what follows from them is in proofs/.
#![tactic(auto)]

// The limits of the chip and of the modules, once for all arrays and tests.
pub const MOST_COLUMNS: usize = 64;

pub const MOST_ROWS: usize = 64;

pub const LAST_KIND: u8 = 2;

pub const MOST_MODULES: usize = 16;

pub const MOST_TOKENS: usize = 2 * MOST_MODULES - 1;

pub const MOST_NUMBER: usize = 65535;

// The most terms and nets that a score is asked with.
pub const MOST_TERMS: usize = 8;

pub const MOST_NETS: usize = 32;

// A number of columns: a width, or a place counted from the left. It never stands for rows.
#[derive(Clone, Copy)]
pub struct Columns(pub usize);

// A number of rows: a height, or a place counted from below. It never stands for columns.
#[derive(Clone, Copy)]
pub struct Rows(pub usize);

// The lower left corner of something on the chip.
#[derive(Clone, Copy)]
pub struct Corner {
    pub x: Columns,
    pub y: Rows,
}

// How wide and how high something is.
#[derive(Clone, Copy)]
pub struct Shape {
    pub w: Columns,
    pub h: Rows,
}

// (x, y, w, h)
#[derive(Clone, Copy)]
pub struct Rectangle {
    pub corner: Corner,
    pub shape: Shape,
}

// What a module needs, or what a rectangle holds, of each kind.
#[derive(Clone, Copy)]
pub struct Need {
    pub clbs: usize,
    pub rams: usize,
    pub multipliers: usize,
}

// stays: (a) no heap: counts stand beside fixed arrays, here and below; the value test speaks of kinds and counts over theirs.
// A chip: its columns and rows, how high its blocks are, and each column's kind. Places beyond width are ignored.
#[derive(Clone, Copy)]
pub struct Chip {
    pub width: Columns,
    pub height: Rows,
    pub block: Rows,
    pub kinds: [u8; MOST_COLUMNS],
}

// A chip, the modules' needs and a slicing tree. Places beyond modules and 2 * modules - 1 are ignored.
#[derive(Clone, Copy)]
pub struct Design {
    pub chip: Chip,
    pub modules: usize,
    pub needs: [Need; MOST_MODULES],
    pub tokens: [u8; MOST_TOKENS],
}

// The two cuts: a vertical one has its children side by side, a horizontal one has them one above the other.
#[derive(Clone, Copy)]
pub enum Direction {
    Vertical,
    Horizontal,
}

// What a token says; Beyond is a value past the largest module's.
#[derive(Clone, Copy)]
pub enum Token {
    Cut(Direction),
    Module(usize),
    Beyond,
}

// What to change.
#[derive(Clone, Copy)]
pub enum Edit {
    Change { module: usize, need: Need },
    Turn { position: usize },
}

// A term of the cost, with its weight.
#[derive(Clone, Copy)]
pub enum Term {
    Area(f64),
    Ratio(f64),
    Wire(f64),
}

// A net: the modules that it joins. Places beyond count are ignored.
#[derive(Clone, Copy)]
pub struct Net {
    pub count: usize,
    pub modules: [u8; MOST_MODULES],
}

// What a score is asked with: terms and nets in their places, and how many of each. Places past a count are ignored.
#[derive(Clone, Copy)]
pub struct Cost {
    pub terms: [Term; MOST_TERMS],
    pub term_count: usize,
    pub nets: [Net; MOST_NETS],
    pub net_count: usize,
}

// Every refusal, in the order of the numbers 1 to 16. It holds a position among the bytes (1 to 7), a module (12, 13)
// or a token's position (14), where there is one.
#[derive(Clone, Copy)]
pub enum Refusal {
    Unfinished(usize),
    Malformed(usize),
    WrongForm(usize),
    BreaksLimits(usize),
    BadToken(usize),
    NotOneThing(usize),
    ExtraBytes(usize),
    TooShort,
    Unreliable,
    NoPlacement,
    NoSuchEdit,
    OffTheChip(usize),
    ShortOfNeed(usize),
    CutNotKept(usize),
    BadTerm,
    BadNet,
}

// What read and edit hand back: the answer, and the design beside it, which a refusal has too: all zeros, or unchanged.
// stays: (a) Reads and Edits say what design a refusal hands back, so it is no Result of a design.
#[derive(Clone, Copy)]
pub struct Handed {
    pub reply: Result<(), Refusal>,
    pub design: Design,
}

// A score: the running total, and the amount of the last term.
#[derive(Clone, Copy)]
pub struct Score {
    pub total: f64,
    pub last: f64,
}
