// The bytes of a line, one by one.
ghost use Rattle.std.specs.Prelude.{◌≤◌};

// What is read of a line so far: `number` is the one that is being read.
#[derive(Clone, Copy)]
pub(crate) struct Reading {
    pub(crate) verb: u8,
    pub(crate) count: usize,
    told: bool,
    minus: bool,
    number: Option<u32>,
}

// One digit more. A number past 32 bits starts again at 0.
fn longer(value: u32, digit: u8) -> u32
    requires { 48 ≤ digit }
{
    match value.checked_mul(10) {
        Some(tens) => tens.wrapping_add((digit - b'0') as u32),
        None => 0,
    }
}

impl Reading {
    // At the start of a line, which is `told` up to its colon.
    pub(crate) fn begun() -> Reading {
        Reading {
            verb: 0,
            count: 0,
            told: true,
            minus: false,
            number: None,
        }
    }

    // After the colon of a label: nothing of it counts.
    fn labelled() -> Reading {
        Reading {
            told: false,
            ..Reading::begun()
        }
    }

    fn with_digit(self, byte: u8) -> Reading
        requires { 48 ≤ byte }
    {
        Reading {
            number: Some(longer(self.number.unwrap_or(0), byte)),
            ..self
        }
    }

    // A byte that is in no number: the word's first letter, a sign, or a space.
    fn with_other(self, count: usize, byte: u8) -> Reading {
        Reading {
            verb: self.first_letter(byte),
            count,
            minus: byte == b'-',
            number: None,
            ..self
        }
    }

    fn first_letter(self, byte: u8) -> u8 {
        match self.verb {
            0 if byte == b' ' => 0,
            0 => byte,
            verb => verb,
        }
    }

    // Puts the number that has ended, if there is one, and answers how many there are.
    fn put(self, numbers: &mut [u32; 32]) -> usize {
        let Some(value) = self.number else {
            return self.count;
        };
        if self.count >= numbers.len() {
            return self.count;
        }
        numbers[self.count] = if self.minus {
            value.wrapping_neg()
        } else {
            value
        };
        self.count + 1
    }

    fn tell(self, rt: &impl Print, byte: u8) {
        if self.told && byte != b'\n' {
            crate::print::word(rt, &[byte]);
        }
    }

    pub(crate) fn fed(self, rt: &impl Print, byte: u8, numbers: &mut [u32; 32]) -> Reading {
        if self.verb == b'#' {
            return self;
        }
        if byte == b'#' {
            return Reading::labelled().with_other(0, byte);
        }
        if byte == b':' {
            return Reading::labelled();
        }
        self.tell(rt, byte);
        if byte.is_ascii_digit() {
            return self.with_digit(byte);
        }
        let count = self.put(numbers);
        self.with_other(count, byte)
    }
}
