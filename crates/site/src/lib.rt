// The site: its bytes, read by accessors; the links and ways of a site; and the tests of a valid one (items 3 to 6).
#![tactic(auto)]

mod links;
mod valid;
mod view;
mod ways;

use bitset::{SET_BYTES, SET_SLOTS};
pub use valid::{check, read};
pub use view::Site;
pub use ways::{Link, Way};

// The limits as `usize`.
pub const LABELS: usize = limits::LABELS as usize;

pub const NAMES: usize = limits::NAMES as usize;

pub const LINKS: usize = limits::LINKS as usize;

pub const GENERAL_LINKS: usize = limits::GENERAL_LINKS as usize;

pub const FUNCTIONAL_LINKS: usize = LINKS - GENERAL_LINKS;

// Where the parts of a site start, and its length.
pub const LABELS_AT: usize = SET_BYTES;

pub const NAMES_AT: usize = LABELS_AT + SET_BYTES * LABELS;

pub const TARGETS_AT: usize = NAMES_AT + NAMES;

pub const ROWS_AT: usize = TARGETS_AT + SET_SLOTS * FUNCTIONAL_LINKS;

pub const ROWS_BYTES: usize = SET_BYTES * SET_SLOTS;

pub const SITE_BYTES: usize = ROWS_AT + ROWS_BYTES * GENERAL_LINKS;
