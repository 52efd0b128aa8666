// The dispatcher of note 13: which of eight feeds has its turn. Its state is two numbers, handed over and handed back: which feeds wait, feed f as bit f
// (bits above 7 are kept and say nothing), and the one last served. The bytes are the host's.
#![tactic(auto)]

ghost use Rattle.std.specs.Prelude.{◌≡◌, ◌≤◌, ◌%◌, ◌^◌, MatchOption};
ghost use Rattle.dispatcher.specs.Dispatching.{OfferIs, TurnIs, FirstIs, NextIs, as_handed};

use answers::{Offered, Refusal, Served};
use limits::{FEEDS, TOP_FEED};

// 2 to the number of feeds: the flags of feeds 0 to 7 are below it.
const FLAGS: u32 = 256;

// What a number below it is multiplied by to stand twice, side by side.
const TWICE: u32 = FLAGS + 1;

// The bit of a feed.
fn flag(feed: u32) -> u32
    requires { feed ≤ 7 }
    ensures { result ≡ 2 ^ feed }
{
    1 << feed
}

// 18, with the state as it was handed over.
fn turned_down(waiting: u32, last: u32) -> Offered
    ensures { result ≡ as_handed waiting last }
{
    Offered {
        number: Refusal::OfferFault.number(),
        place: 0,
        waiting,
        last,
    }
}

// An offer of a piece for a feed.
pub fn offer(waiting: u32, last: u32, feed: u32) -> Offered
    ensures { OfferIs waiting last feed result }
{
    if feed > TOP_FEED {
        return turned_down(waiting, last);
    }
    let above = waiting >> feed;
    if above % 2 == 1 {
        return turned_down(waiting, last);
    }
    let now = waiting + flag(feed);
    Offered {
        number: 0,
        place: 0,
        waiting: now,
        last,
    }
}

// Where a turn begins to look: 1 to 8, and 8 stands for feed 0. "a last-served number above 7 reads as 7"
fn first_after(last: u32) -> u32
    ensures { FirstIs last result }
{
    last.min(TOP_FEED) + 1
}

// The next waiting feed, if one waits. Beside themselves, and shifted down, the flags stand in the order in which the feeds are looked at,
// going round.
fn next_feed(waiting: u32, last: u32) -> Option<u32>
    ensures { MatchOption result (waiting % 256 ≡ 0) (NextIs (waiting % 256) last) }
{
    let low = waiting % FLAGS;
    if low == 0 {
        return None;
    }
    let from = first_after(last);
    let twice = low * TWICE;
    let round = twice >> from;
    let place = from + round.trailing_zeros();
    Some(place % FEEDS)
}

// A turn: it names the next waiting feed after the one last served.
pub fn turn(waiting: u32, last: u32) -> Served
    ensures { TurnIs waiting last result }
{
    match next_feed(waiting, last) {
        None => Served {
            served: 0,
            feed: 0,
            waiting,
            last,
        },
        Some(feed) => Served {
            served: 1,
            feed,
            waiting: waiting - flag(feed),
            last: feed,
        },
    }
}
