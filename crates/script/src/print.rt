// What the answers are made of, on standard output. A write that fails is passed over.

pub fn word(rt: &impl Print, text: &[u8]) {
    let _ = rt.write_all(text);
}

pub fn number(rt: &impl Print, n: u32) {
    word(rt, b" ");
    let _ = rt.print(n);
}

pub fn end(rt: &impl Print) {
    word(rt, b"\n");
}

// The end of a line whose last word is an answer.
pub fn answer(rt: &impl Print, yes: bool) {
    if yes {
        word(rt, b" yes\n");
        return;
    }
    word(rt, b" no\n");
}
