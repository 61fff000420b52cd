// The limits of the format and the numbers of its kinds of node. Each stands here once; specs/Limits.antt has the same for contracts.
#![tactic(auto)]

mod below;

pub use below::Below;

// How many labels, names, links and variables there are.
pub const LABELS: u8 = 16;

pub const NAMES: u8 = 48;

pub const LINKS: u8 = 8;

pub const VARIABLES: u8 = 16;

// Links 0 to 3 are general, with any number of targets; the others are functional, with one at most.
pub const GENERAL_LINKS: u8 = 4;

// The ways: the links, their reverses in the same order, and then the one that leads everywhere, E.
pub const EVERY: u8 = 2 * LINKS;

// The most nodes of a table; the bytes of a node, and of a whole table.
pub const TABLE_NODES: usize = 2048;

pub const NODE_BYTES: usize = 6;

pub const TABLE_BYTES: usize = NODE_BYTES * TABLE_NODES;

// The highest limit on rounds that listing and the job take.
pub const HIGHEST_LIMIT: u32 = 1000000;

// The kinds of node. Those up to VAR have no child, nor does SLOT; OR and AND have two, and the others one.
pub const TRUE: u8 = 0;

pub const HERE: u8 = 1;

pub const LABEL: u8 = 2;

pub const NAME: u8 = 3;

pub const VAR: u8 = 4;

pub const NOT: u8 = 5;

pub const OR: u8 = 6;

pub const AND: u8 = 7;

pub const DIA: u8 = 8;

pub const BOX: u8 = 9;

pub const MU: u8 = 10;

pub const NU: u8 = 11;

pub const SLOT: u8 = 12;

// How many kinds there are.
pub const KINDS: u8 = SLOT + 1;
