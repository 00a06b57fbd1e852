// Readers of decimals, of lists of them and of fields (document 01, "The printed round"). Each looks at the start of a slice, and says how
// many bytes it took. They are the only ones in the project; lines are read in sheets and in level_files.
#![tactic(auto)]

ghost use Rattle.std.specs.Prelude.{◌≡◌, ◌≤◌, ◌<◌, length, drop};
ghost use Rattle.std.specs.List.{take_while};
ghost use Rattle.decimals.specs.Reading.{found, closed, begins_with, starts_with, is_digit, Digits, value, number, negative};
ghost use Rattle.decimals.specs.Reading.{signed_number, numbers};
ghost use Rattle.decimals.specs.Held.{taken, taken_as, numbers_of};

// What was read at the start of a slice, and how many bytes it takes.
#[derive(Clone, Copy, Debug, PartialEq, Eq)]
pub struct Taken<T> {
    pub value: T,
    pub len: usize,
}

// One to sixteen decimals, of which the first `count` values are.
#[derive(Clone, Copy, Debug, PartialEq, Eq)]
pub struct NumberList {
    pub values: [u32; 16],
    pub count: usize,
}

impl<T: Copy> Taken<T> {
    // The same with the byte `end`, where that comes right after it in the slice.
    pub fn ended(self, s: &[u8], end: u8) -> Option<Taken<T>>
        ensures { result ≡ taken (closed end (found self.value self.len) s.now) }
    {
        if !starts_with(s, self.len, end) {
            return None;
        }
        Some(Taken {
            value: self.value,
            len: self.len + 1,
        })
    }
}

// The text begins with another one.
pub fn begins_with(s: &[u8], t: &[u8]) -> bool
    ensures { result ≡ begins_with t.now s.now }
{
    s.starts_with(t)
}

// The byte at an index is b.
pub fn starts_with(s: &[u8], at: usize, b: u8) -> bool
    ensures { result ≡ starts_with b (drop at s.now) }
{
    s.get(at) == Some(&b)
}

// How many digits the slice starts with.
fn run(s: &[u8]) -> usize
    ensures { result ≡ length (take_while is_digit s.now) }
{
    s.iter().take_while(|b| b.is_ascii_digit()).count()
}

// The number that at most six digits stand for.
fn value(s: &[u8]) -> u32
    requires { Digits s.now × (length s.now ≤ 6) }
    ensures { result ≡ value 0 s.now }
{
    let mut v = 0;
    for b in s {
        v = v * 10 + u32::from(*b - b'0');
    }
    v
}

// A decimal of one to six digits without a leading zero.
pub fn number(s: &[u8]) -> Option<Taken<u32>>
    ensures { result ≡ taken (number s.now) }
{
    let k = run(s);
    if k == 0 {
        return None;
    }
    if 6 < k {
        return None;
    }
    let several = 1 < k;
    if several && starts_with(s, 0, b'0') {
        return None;
    }
    let v = value(&s[..k]);
    Some(Taken { value: v, len: k })
}

// A decimal behind a minus, which is not zero.
fn below_zero(s: &[u8]) -> Option<Taken<i32>>
    ensures { result ≡ taken (negative (number s.now)) }
{
    let Taken { value, len } = number(s)?;
    if value == 0 {
        return None;
    }
    Some(Taken {
        value: -value.cast_signed(),
        len: len + 1,
    })
}

// A decimal, with a minus before one below zero.
pub fn signed_number(s: &[u8]) -> Option<Taken<i32>>
    ensures { result ≡ taken (signed_number s.now) }
{
    if starts_with(s, 0, b'-') {
        return below_zero(&s[1..]);
    }
    let Taken { value, len } = number(s)?;
    Some(Taken {
        value: value.cast_signed(),
        len,
    })
}

// One to sixteen decimals joined by single commas.
pub fn numbers(s: &[u8]) -> Option<Taken<NumberList>>
    ensures { result ≡ taken_as numbers_of (numbers 16 s.now) }
{
    let mut values = [0u32; 16];
    let mut at = 0;
    for i in 0..16 {
        let Taken { value, len } = number(&s[at..])?;
        values[i] = value;
        at += len;
        if !starts_with(s, at, b',') {
            return Some(Taken {
                value: NumberList {
                    values,
                    count: i + 1,
                },
                len: at,
            });
        }
        at += 1;
    }
    None
}
