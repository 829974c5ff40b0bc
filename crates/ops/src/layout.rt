// Where things stand in a desk's memory, cell by cell (specs/Layout.antt). How many desks there are.
pub const DESKS: usize = 32;

// 1 + the desk's number, or 0 before it is opened; what is still to be shown, and of which key.
pub const DESK: usize = 0;

pub const PENDING: usize = 1;

pub const KEY: usize = 2;

// How many operations are in the log.
pub const LENGTH: usize = 3;

// For each desk the highest number of its operations in the log, and how many they are.
pub const VERSION: usize = 32;

pub const MADE: usize = VERSION + DESKS;

// For each peer the version vector that its letters told of.
pub const HEARD: usize = MADE + DESKS;

// The log: how many operations it holds, and how many cells each has.
pub const LOG: usize = HEARD + DESKS * DESKS;

pub const CAPACITY: usize = 8192;

pub const WIDTH: usize = 6;

pub const SIZE: usize = LOG + CAPACITY * WIDTH;
