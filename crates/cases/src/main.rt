// The answers of rounding, bucket counts, ids and signed sides on both sides of every edge of document 01, a line each: what it is, the
// numbers that go in, the answer. The lines up to the answer are the file stdin. Numbers that a leaf does not take get no answer.
#![tactic(auto)]

use rules::{RECORDS_MOST, REQUEST_MOST};

fn aligned(rt: &impl Print, size: u32, step: u32) {
    if step == 0 || step > REQUEST_MOST || size > REQUEST_MOST {
        return;
    }
    script::number(rt, sizes::align_up(size, step));
}

fn height(rt: &impl Print, size: u32) {
    if size > REQUEST_MOST {
        return;
    }
    script::number(rt, sizes::shelf_height(size));
}

fn count(rt: &impl Print, column_width: u32, w: u32, height: u32, present: u32) {
    if height == 0 || present > RECORDS_MOST as u32 {
        return;
    }
    script::number(rt, sizes::bucket_count(column_width, w, height, present));
}

fn id(rt: &impl Print, bucket: u32, items: u32, generation: u32) {
    if bucket > RECORDS_MOST as u32 || items > REQUEST_MOST || generation > 255 {
        return;
    }
    script::number(
        rt,
        numbers::id_of(bucket as u16, items as u16, generation as u16),
    );
}

fn parts(rt: &impl Print, id: u32) {
    script::number(rt, numbers::id_bucket(id) as u32);
    script::number(rt, numbers::id_generation(id) as u32);
}

fn generation(rt: &impl Print, old: u32) {
    if old > REQUEST_MOST {
        return;
    }
    script::number(rt, numbers::next_generation(old as u16) as u32);
}

fn answer(rt: &impl Print, verb: u8, numbers: &[u32; 32]) {
    match verb {
        b'a' => aligned(rt, numbers[0], numbers[1]),
        b'h' => height(rt, numbers[0]),
        b'r' => script::number(rt, sizes::by_ratio(numbers[0])),
        b'c' => count(rt, numbers[0], numbers[1], numbers[2], numbers[3]),
        b'i' => id(rt, numbers[0], numbers[1], numbers[2]),
        b'p' => parts(rt, numbers[0]),
        b'g' => generation(rt, numbers[0]),
        b'n' => script::number(rt, numbers::natural(numbers::signed(numbers[0]))),
        _ => return,
    }
    script::end(rt);
}

fn run(rt: &impl Print, text: &[u8]) {
    let mut numbers = [0u32; 32];
    let mut at = 0;
    while at < text.len() {
        let step = script::read(rt, text, at, &mut numbers);
        answer(rt, step.verb, &numbers);
        at = step.next;
    }
}

fn main(rt: HostRuntime) {
    let mut text = [0u8; 4096];
    let n = script::read_full(&mut rt.stdin(), &mut text);
    run(&rt, &text[..n]);
}
