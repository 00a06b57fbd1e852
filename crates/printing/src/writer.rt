// Writers of decimals, of lists of them and of fields, into a lent slice. Each starts at an index and returns the index behind.
// The slice and the index are two parameters: the lines of a round take longer to write where a struct holds them. Not `write!`: it answers a
// `Result`, and these writers cannot fail.
ghost use Rattle.std.specs.Prelude.{[], ◌∷◌, ◌++◌, ◌+◌, ◌≤◌, ◌<◌, length, take, drop};
ghost use Rattle.decimals.specs.Text.{decimal, signed, commaed, joined};
ghost use Rattle.printing.specs.Writing.{Wrote};

// One byte.
pub(crate) fn put(out: &mut [u8], at: usize, b: u8) -> usize
    requires { at < length out.old }
    ensures { Wrote out.old at (b ∷ []) result out.new }
{
    out[at] = b;
    at + 1
}

// A decimal, the digits before the last one first. `as` narrows one digit.
pub(crate) fn put_decimal(out: &mut [u8], at: usize, v: u64) -> usize
    requires { at + length (decimal v) ≤ length out.old }
    ensures { Wrote out.old at (decimal v) result out.new }
{
    if v < 10 {
        return put(out, at, b'0' + v as u8);
    }
    let next = put_decimal(out, at, v / 10);
    put(out, next, b'0' + (v % 10) as u8)
}

// A comma and a decimal.
fn put_next(out: &mut [u8], at: usize, v: u8) -> usize
    requires { at + length (commaed (v ∷ [])) ≤ length out.old }
    ensures { Wrote out.old at (commaed (v ∷ [])) result out.new }
{
    let next = put(out, at, b',');
    put_decimal(out, next, u64::from(v))
}

// The symbols of a window behind the first, each with a comma before it.
fn put_others(out: &mut [u8], at: usize, w: [u8; 16], n: usize) -> usize
    requires { (1 ≤ n) × (n ≤ 16) × (at + length (commaed (drop 1 (take n w))) ≤ length out.old) }
    ensures { Wrote out.old at (commaed (drop 1 (take n w))) result out.new }
{
    let mut next = at;
    for i in 1..n {
        next = put_next(out, next, w[i]);
    }
    next
}

// A decimal, and the byte behind it.
pub(crate) fn put_decimal_field(out: &mut [u8], at: usize, v: u64, end: u8) -> usize
    requires { at + length (decimal v ++ (end ∷ [])) ≤ length out.old }
    ensures { Wrote out.old at (decimal v ++ (end ∷ [])) result out.new }
{
    let next = put_decimal(out, at, v);
    put(out, next, end)
}

// A decimal, with a minus before one below zero, and the byte behind it.
pub(crate) fn put_signed_field(out: &mut [u8], at: usize, z: i32, end: u8) -> usize
    requires { at + length (signed z ++ (end ∷ [])) ≤ length out.old }
    ensures { Wrote out.old at (signed z ++ (end ∷ [])) result out.new }
{
    let v = u64::from(z.unsigned_abs());
    if z < 0 {
        let next = put(out, at, b'-');
        return put_decimal_field(out, next, v, end);
    }
    put_decimal_field(out, at, v, end)
}

// The symbols of a window joined by commas, and the byte behind them.
pub(crate) fn put_joined_field(out: &mut [u8], at: usize, w: [u8; 16], n: usize, end: u8) -> usize
    requires { (1 ≤ n) × (n ≤ 16) × (at + length (joined (take n w) ++ (end ∷ [])) ≤ length out.old) }
    ensures { Wrote out.old at (joined (take n w) ++ (end ∷ [])) result out.new }
{
    let others = put_decimal(out, at, u64::from(w[0]));
    let last = put_others(out, others, w, n);
    put(out, last, end)
}
