// Ends at the front of a lent list become pairs, each end with its raw count, in place. It goes from the
// last on: a pair then lies over no end that is still to come.
#![tactic(auto)]

ghost use Rattle.std.specs.Prelude.{◌≡◌, ◌+◌, ◌-◌, ◌*◌, ◌≤◌, ◌<◌, length};
ghost use Rattle.model.specs.RawPlaces.{pair_numbers};
ghost use Rattle.entry_list.specs.Marks.{mark_numbers, marked_place, SkipIs, MarkFits};
ghost use Rattle.entry_list.specs.Pairing.{even_place, uneven_place, PairIs, Near, EvenFits, UnevenFits, Paired};

// The numbers of a mark.
pub const MARK: usize = 3;

// An end and its raw count as the pair j.
fn put_pair(ends: &mut [u32], j: usize, e: u32, place: u32)
    requires { j * pair_numbers + 1 < length ends.old }
    ensures { PairIs j e place ends.old ends.new }
{
    let i = j * 2;
    ends[i] = e;
    ends[i + 1] = place;
}

// The raw count of an end where each byte counts one.
fn even_place(e: u32, at: u32, raw: u32) -> u32
    requires { Near at raw e }
    ensures { result ≡ even_place at raw e }
{
    raw + (e - at)
}

// The first k ends become pairs; past these the list stays. The bytes went out as they came, after `at`
// decoded ones and `raw` raw ones.
pub fn pair_evenly(ends: &mut [u32], k: usize, at: u32, raw: u32)
    requires { EvenFits at raw k ends.old }
    ensures { Paired (even_place at raw) k ends.old ends.new }
{
    for j in (0..k).rev() {
        let e = ends[j];
        let place = even_place(e, at, raw);
        put_pair(ends, j, e, place);
    }
}

// How many of the first m marks are left without those at their end that start at q or after.
fn skip_marks(marks: &[u16], m: usize, q: u32) -> usize
    requires { mark_numbers * m ≤ length marks.now }
    ensures { SkipIs marks.now m q result }
{
    for i in (0..m).rev() {
        if u32::from(marks[MARK * i]) < q {
            return i + 1;
        }
    }
    0
}

// The raw count of an end after q bytes, by the last of m marks, which starts before it.
fn marked_place(marks: &[u16], m: usize, q: u32) -> u32
    requires { MarkFits marks.now m q }
    ensures { result ≡ marked_place marks.now m q }
{
    if m == 0 {
        return q;
    }
    let from = MARK * (m - 1);
    let after = u32::from(marks[from + 1]);
    let ahead = u32::from(marks[from + 2]);
    q.max(after) + ahead
}

// The same where the bytes were decoded: the first `count` marks tell where references stood. Ends and marks are
// walked back together, so that each mark is read once.
pub fn pair_unevenly(ends: &mut [u32], k: usize, at: u32, raw: u32, marks: &[u16], count: usize)
    requires { UnevenFits at raw marks.now count k ends.old }
    ensures { Paired (uneven_place at raw marks.now count) k ends.old ends.new }
{
    let mut m = count;
    for j in (0..k).rev() {
        let e = ends[j];
        let q = e - at;
        m = skip_marks(marks, m, q);
        let past = marked_place(marks, m, q);
        let place = raw + past;
        put_pair(ends, j, e, place);
    }
}
