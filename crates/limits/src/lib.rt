// The limits of document 01 and of the change requests, each under one name; `model` has the same (`rule_limit` and so on), and the
// header for a host. No code.

#![tactic(auto)]

// "A rule is 1 to 1,023 bytes".
pub const RULE_LIMIT: usize = 1023;

// "A rule has at most 255", positions.
pub const POSITION_LIMIT: u32 = 255;

// "at most 32 bytes from `&` to `;`, leading zeros included".
pub const FORM_LIMIT: usize = 32;

// "at most 31 bytes" are held back between pieces: one less than a form has.
pub const HELD_MOST: usize = FORM_LIMIT - 1;

// "more than 4,294,967,295 bytes in the text, the name or the pattern, or in all the pieces" are refused.
pub const TEXT_LIMIT: usize = 4_294_967_295;

// "up to 8 such codes"
pub const CODES_MOST: usize = 8;

// "a set of bytes, sent as 32 bytes"
pub const SET_BYTES: usize = 32;

// "Eight feeds"
pub const FEEDS: u32 = 8;

// "At the opening feed 7 counts as last served, and a last-served number above 7 reads as 7."
pub const TOP_FEED: u32 = FEEDS - 1;

// "Feed and finish lists count pairs", of two numbers each: the decoded end and the raw count.
pub const PAIR: usize = 2;
