// The lister program of document 01: a rule on the first line of its input, the raw plan after that newline.
// `Taken::take` sorts the input into both, however long it is and in whatever pieces it comes; `list` prints what the
// finder answers, through the calls that a C host has.
#![tactic(auto)]

use answers::Answer;

// Bytes of the rule that are kept: one more than a rule may have, so that a longer one is refused.
const RULE_ROOM: usize = limits::RULE_LIMIT + 1;

// "16,384 bytes at most"
const PLAN_LIMIT: usize = 16384;

// Bytes that one feed is given, and the list that it needs: a pair for each of them, and for each of the bytes
// that may have been held before them.
const PIECE: usize = 4096;

const PIECE_LIST: usize = limits::PAIR * (PIECE + limits::HELD_MOST);

const FINISH_LIST: usize = limits::PAIR * limits::HELD_MOST;

// What was taken so far: whether the first newline has come, how many bytes of the rule and of the
// plan are kept, and whether the plan had more than may be kept.
#[derive(Drop)]
struct Taken {
    in_plan: bool,
    rule: usize,
    plan: usize,
    too_long: bool,
}

impl Taken {
    fn nothing() -> Taken {
        Taken {
            in_plan: false,
            rule: 0,
            plan: 0,
            too_long: false,
        }
    }

    fn take_rule_byte(&mut self, c: u8, rule: &mut [u8]) {
        if self.rule < rule.len() {
            rule[self.rule] = c;
            self.rule += 1;
        }
    }

    fn take_plan_byte(&mut self, c: u8, plan: &mut [u8]) {
        if self.plan < plan.len() {
            plan[self.plan] = c;
            self.plan += 1;
        } else {
            self.too_long = true;
        }
    }

    fn take_byte(&mut self, c: u8, rule: &mut [u8], plan: &mut [u8]) {
        if self.in_plan {
            self.take_plan_byte(c, plan);
        } else if c == b'\n' {
            self.in_plan = true;
        } else {
            self.take_rule_byte(c, rule);
        }
    }

    // Takes the next bytes of the input.
    fn take(&mut self, bytes: &[u8], rule: &mut [u8], plan: &mut [u8]) {
        for c in bytes {
            self.take_byte(*c, rule, plan);
        }
    }

    // Takes what one read of standard input gives, and says whether it was the last.
    fn read_some(&mut self, rule: &mut [u8], plan: &mut [u8]) -> bool {
        let mut room = io::large_buffer();
        let n = io::read_full(0, &mut room);
        self.take(&room[..n], rule, plan);
        n < room.len()
    }

    // Nothing tells the prover that an input ends, so the reads are counted; no input outlasts them.
    fn read_all(&mut self, rule: &mut [u8], plan: &mut [u8]) {
        for _ in 0..u64::MAX {
            if self.read_some(rule, plan) {
                return;
            }
        }
    }
}

fn text(s: &[u8]) {
    io::write_all(1, s);
}

fn number(n: u32) {
    io::print_decimal(1, u64::from(n));
}

fn line(name: &[u8], n: u32) {
    text(name);
    number(n);
    text(b"\n");
}

// An entry of a list, after those before it on its line.
fn entry(n: u32) {
    text(b" ");
    number(n);
}

// The entries of a list that an answer reports.
fn reported(a: Answer, list: &[u32]) {
    for n in list.iter().take(a.count as usize) {
        entry(*n);
    }
}

// The decoded ends of the pairs that an answer reports.
fn reported_ends(a: Answer, list: &[u32]) {
    for pair in list.chunks_exact(limits::PAIR).take(a.count as usize) {
        entry(pair[0]);
    }
}

fn feed_piece(scan: &mut [u64], piece: &[u8]) {
    let mut ends = [0u32; PIECE_LIST];
    let a = jazhuppe::exports::jazhuppe_feed(scan, piece, &mut ends);
    reported_ends(a, &ends);
}

fn list_ends(rule: &[u8], plan: &[u8]) {
    let mut scan = [0u64; scan_value::LENGTH];
    jazhuppe::exports::jazhuppe_open(rule, 0, b"", b"", &mut scan);
    text(b"ends");
    for piece in plan.chunks(PIECE) {
        feed_piece(&mut scan, piece);
    }
    let mut ends = [0u32; FINISH_LIST];
    let a = jazhuppe::exports::jazhuppe_finish(&mut scan, &mut ends);
    reported_ends(a, &ends);
    text(b"\n");
}

fn list_starts(rule: &[u8], decoded: &[u8]) {
    let mut starts = [0u32; PLAN_LIMIT];
    let a = jazhuppe::exports::jazhuppe_search(rule, 0, b"", b"", decoded, &mut starts);
    let windows = a.windows;
    text(b"starts");
    reported(a, &starts);
    text(b"\n");
    line(b"windows ", windows);
}

fn list_plan(rule: &[u8], plan: &[u8]) {
    list_ends(rule, plan);
    let mut decoded = [0u8; PLAN_LIMIT];
    let a = jazhuppe::exports::jazhuppe_decode(plan, &mut decoded);
    let n = (a.count as usize).min(PLAN_LIMIT);
    list_starts(rule, &decoded[..n]);
}

fn list_rule(rule: &[u8], plan: &[u8]) {
    let p = jazhuppe::exports::jazhuppe_prepare(rule, 0);
    if p.number != 0 {
        text(b"refused ");
        number(p.number);
        line(b" at ", p.place);
        return;
    }
    line(b"positions ", p.positions);
    line(b"shortest ", p.shortest);
    list_plan(rule, plan);
}

// Prints the listing of what was taken.
fn list(taken: Taken, rule: &[u8], plan: &[u8]) {
    if taken.too_long {
        text(b"too long\n");
        return;
    }
    let r = taken.rule.min(rule.len());
    let p = taken.plan.min(plan.len());
    list_rule(&rule[..r], &plan[..p]);
}

fn main() {
    let mut rule = [0u8; RULE_ROOM];
    let mut plan = [0u8; PLAN_LIMIT];
    let mut taken = Taken::nothing();
    taken.read_all(&mut rule, &mut plan);
    list(taken, &rule, &plan);
}
