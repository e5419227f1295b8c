// The feature map: its eleven bits (document 003 section 1), and the maps that they make.
pub const BITS: usize = 11;

pub const MAPS: u64 = 1 << BITS;

pub const CORE: u64 = 0;

pub const FLEX: u64 = 1;

pub const BATTERY: u64 = 2;

pub const EMOB: u64 = 3;

pub const SIGNALS: u64 = 4;

pub const TARIFF: u64 = 5;

pub const PLAN: u64 = 6;

pub const PROCESS: u64 = 7;

pub const FORECAST: u64 = 8;

pub const ASYMMETRIC: u64 = 9;

pub const V2X: u64 = 10;
