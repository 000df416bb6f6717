// The tables test on small tables. The file stdin has them and says how each is written; a line each: what is broken, and the answer.
#![tactic(auto)]

ghost use Rattle.std.specs.Prelude.{◌≤◌, ◌≡◌, ℕ, Some};

use rules::{BUCKETS_ROOM, Head, NONE, RECORDS_MOST, SHELVES_ROOM};

// Room for 4,095 shelves of 5 numbers.
type Shelves = [u16; SHELVES_ROOM];

// Room for 4,096 buckets of 7 numbers: one more than there may be.
const ROOM: usize = BUCKETS_ROOM + 7;

type Buckets = [u16; ROOM];

// Six tables of 24 cells: two shelves, then two buckets.
type Tables = [u16; 144];

type Numbers = [u32; 32];

const MOST: usize = RECORDS_MOST as usize;

// Where bucket 4,095 has its next one.
const LAST_NEXT: usize = BUCKETS_ROOM + 2;

// A number too few of either.
const SHORT_SHELVES: usize = SHELVES_ROOM - 1;

const SHORT_BUCKETS: usize = BUCKETS_ROOM - 1;

fn cell(n: u32) -> u16 {
    (n % 65536) as u16
}

fn head_of(numbers: &Numbers) -> Head {
    Head {
        width: (numbers[0] % 65536) as u16,
        height: (numbers[1] % 65536) as u16,
        align_width: (numbers[2] % 65536) as u16,
        align_height: (numbers[3] % 65536) as u16,
        columns: (numbers[4] % 65536) as u16,
        column_width: (numbers[5] % 65536) as u16,
        column: (numbers[6] % 65536) as u16,
        room: (numbers[7] % 65536) as u16,
        shelf_count: (numbers[8] % 65536) as u16,
        bucket_count: (numbers[9] % 65536) as u16,
        released: (numbers[10] % 65536) as u16,
        occupied: numbers[11],
    }
}

fn say(rt: &impl Print, head: Head, shelves: &[u16], buckets: &[u16]) {
    script::word(rt, b":");
    script::answer(rt, sound::is_sound(head, shelves, buckets));
}

fn put(shelves: &mut Shelves, buckets: &mut Buckets, at: usize, v: u16) {
    if at < 10 {
        shelves[at] = v;
        return;
    }
    if at < 24 {
        buckets[at - 10] = v;
    }
}

// A table's 24 cells, from the place where it begins.
fn lay(tables: &Tables, from: usize, shelves: &mut Shelves, buckets: &mut Buckets)
    requires { from ≤ 120 }
{
    for i in 0..24 {
        put(shelves, buckets, i, tables[from + i]);
    }
}

// The edits stand behind the header, in pairs.
fn edit(numbers: &Numbers, count: usize, shelves: &mut Shelves, buckets: &mut Buckets) {
    for i in 6..16 {
        if 2 * i + 1 < count {
            put(
                shelves,
                buckets,
                script::index(numbers[2 * i]),
                cell(numbers[2 * i + 1]),
            );
        }
    }
}

fn case(
    rt: &impl Print,
    from: usize,
    numbers: &Numbers,
    count: usize,
    tables: &Tables,
    shelves: &mut Shelves,
    buckets: &mut Buckets,
)
    requires { from ≤ 120 }
{
    lay(tables, from, shelves, buckets);
    edit(numbers, count, shelves, buckets);
    say(rt, head_of(numbers), shelves, buckets);
}

fn table(numbers: &Numbers, tables: &mut Tables) {
    let n = script::index(numbers[0]);
    if n > 5 {
        return;
    }
    for i in 0..24 {
        tables[24 * n + i] = cell(numbers[i + 1]);
    }
}

// One number in every cell of both tables.
fn write(v: u16, shelves: &mut Shelves, buckets: &mut Buckets) {
    shelves.fill(v);
    buckets.fill(v);
}

// Buckets 1 to 4,095, each with the next.
fn chain(buckets: &mut Buckets) {
    for k in 1..MOST {
        buckets[7 * k + 2] = cell(k as u32 + 1);
    }
    buckets[LAST_NEXT] = NONE;
}

// The tables test on a shelf table that is one number short.
fn short_shelves(rt: &impl Print, head: Head, buckets: &Buckets) {
    let shelves = [0u16; SHORT_SHELVES];
    say(rt, head, &shelves, buckets);
}

// The tables test on a bucket table that is one number short.
fn short_buckets(rt: &impl Print, head: Head, shelves: &Shelves) {
    let buckets = [0u16; SHORT_BUCKETS];
    say(rt, head, shelves, &buckets);
}

fn lent(rt: &impl Print, numbers: &Numbers, shelves: &Shelves, buckets: &Buckets) {
    if numbers[12] == 0 {
        short_shelves(rt, head_of(numbers), buckets);
        return;
    }
    short_buckets(rt, head_of(numbers), shelves);
}

// Where the table of that name begins: none, one, pair, stack, row, all.
fn table_at(verb: u8) -> Option<usize>
    ensures { (at : ℕ) → result ≡ Some at → at ≤ 120 }
{
    match verb {
        b'n' => Some(0),
        b'o' => Some(24),
        b'p' => Some(48),
        b's' => Some(72),
        b'r' => Some(96),
        b'a' => Some(120),
        _ => None,
    }
}

// The lines that are no case of a table.
fn other(
    rt: &impl Print,
    verb: u8,
    numbers: &Numbers,
    tables: &mut Tables,
    shelves: &mut Shelves,
    buckets: &mut Buckets,
) {
    match verb {
        b't' => table(numbers, tables),
        b'l' => lent(rt, numbers, shelves, buckets),
        b'w' => write(cell(numbers[0]), shelves, buckets),
        b'c' => chain(buckets),
        _ => return,
    }
}

fn done(
    rt: &impl Print,
    verb: u8,
    numbers: &Numbers,
    count: usize,
    tables: &mut Tables,
    shelves: &mut Shelves,
    buckets: &mut Buckets,
) {
    match table_at(verb) {
        Some(from) => case(rt, from, numbers, count, tables, shelves, buckets),
        None => other(rt, verb, numbers, tables, shelves, buckets),
    }
}

fn run(rt: &impl Print, text: &[u8]) {
    let mut numbers = [0u32; 32];
    let mut tables = [0u16; 144];
    let mut shelves = [0u16; rules::SHELVES_ROOM];
    let mut buckets = [0u16; ROOM];
    let mut at = 0;
    while at < text.len() {
        let step = script::read(rt, text, at, &mut numbers);
        done(
            rt,
            step.verb,
            &numbers,
            step.count,
            &mut tables,
            &mut shelves,
            &mut buckets,
        );
        at = step.next;
    }
}

fn main(rt: HostRuntime) {
    let mut text = [0u8; 65536];
    let n = script::read_full(&mut rt.stdin(), &mut text);
    run(&rt, &text[..n]);
}
