// The limits of document 01, "Units and sizes", for one account, one product, one call, and the house. All are inclusive; ranges go down to 0 or 1,
// or to the same size below 0.
pub const MOST_YEN_PRICE: i64 = 5000000;

pub const MOST_CROSS_PRICE: i64 = 200000;

pub const MOST_YEN_BOOK: u64 = 10000000000000;

pub const MOST_CROSS_BOOK: u64 = 400000000000;

pub const MOST_LOTS: i64 = 1000000;

pub const MOST_RATE: i64 = 10000;

pub const MOST_AMOUNT: i64 = 1000000000000;

pub const MOST_GUARANTEE: i64 = 1000000000000;

pub const MOST_GROSS: u64 = 1000000000000000;

pub const MOST_MARGIN: i64 = 8000000000000;

pub const MOST_HOUSE: u64 = 100000000000000000;
