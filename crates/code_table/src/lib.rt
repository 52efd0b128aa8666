// The table of a rule, read by fit: the entry of a code becomes the union of the entries of the bytes in its set, and every
// other entry stays. Forwards, reversed and in each plane alike.
#![tactic(auto)]

ghost use Rattle.std.specs.Prelude.{◌≡◌, length};
ghost use Rattle.model.specs.Codes.{set_bytes, in_set};
ghost use Rattle.code_table.specs.CodeTables.{union_below, PlaneFittable, PlaneFits, WordFittable, WordFits, TableFittable, TableFits};
ghost use Rattle.code_table.specs.CodeTables.{PlaneReadable, PlaneFitted, Readable, Fitted};

use limits::SET_BYTES;

// The union of the entries of a set's bytes.
fn union_of(plane: &[u64], set: &[u8]) -> u64
    requires plane_len { length plane.now ≡ 256 }
    requires set_len { length set.now ≡ set_bytes }
    ensures { result ≡ union_below (in_set set.now) plane.now 256 }
{
    let mut union = 0;
    for (x, entry) in plane.iter().enumerate() {
        if code_list::in_set(set, x as u8) {
            union |= *entry;
        }
    }
    union
}

// One plane, of any table: the entry of each code becomes the union of those of its set's bytes. No set holds a code, so
// that no union has an entry that was replaced.
fn fit_plane(codes: &[u8], sets: &[u8], plane: &mut [u64])
    requires { PlaneFittable codes.now sets.now plane.old }
    ensures { PlaneFits codes.now sets.now plane.old plane.new }
{
    for (code, set) in codes.iter().zip(sets.chunks_exact(SET_BYTES)) {
        let union = union_of(plane, set);
        plane[usize::from(*code)] = union;
    }
}

// The plane of a word; where no position has a bit in it, its entries are 0 and so are their unions.
fn fit_word(codes: &[u8], sets: &[u8], total: u32, plane: &mut [u64], word: u32)
    requires { WordFittable codes.now sets.now plane.old word }
    ensures { WordFits codes.now sets.now total plane.old plane.new word }
{
    if word * 64 <= total {
        fit_plane(codes, sets, plane);
    }
}

// All four planes.
fn fit(codes: &[u8], sets: &[u8], total: u32, table: &mut [u64])
    requires { TableFittable codes.now sets.now table.old }
    ensures { TableFits codes.now sets.now total table.old table.new }
{
    for word in 0..4u32 {
        let at = word as usize * 256;
        fit_word(codes, sets, total, &mut table[at..at + 256], word);
    }
}

// A plane of an accepted rule with accepted codes.
pub fn fill_plane(
    rule: &[u8],
    fold: u32,
    codes: &[u8],
    sets: &[u8],
    total: u32,
    plane: &mut [u64],
    reversed: bool,
    word: u32,
)
    requires { PlaneReadable fold rule.now codes.now sets.now total plane.old word }
    ensures { PlaneFitted fold rule.now codes.now sets.now reversed plane.new word }
{
    rule_table::fill_plane(rule, fold, total, plane, reversed, word);
    fit_word(codes, sets, total, plane, word);
}

// The table of an accepted rule with accepted codes.
pub fn fill(
    rule: &[u8],
    fold: u32,
    codes: &[u8],
    sets: &[u8],
    total: u32,
    table: &mut [u64],
    reversed: bool,
)
    requires { Readable fold rule.now codes.now sets.now total table.old }
    ensures { Fitted fold rule.now codes.now sets.now reversed table.new }
{
    rule_table::fill(rule, fold, total, table, reversed);
    fit(codes, sets, total, table);
}
