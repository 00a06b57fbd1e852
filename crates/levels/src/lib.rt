// The level setting of a round, and the level of a symbol. The only crate that knows how a level is made.
// Rests on weak_orders for test 6, and on successors for the form that a rule's windows have. `as` narrows a product or an index that its types bound.
#![tactic(auto)]

pub mod table;

ghost use Rattle.std.specs.Prelude.{◌&&◌, ◌≡◌, ◌<◌, ◌^◌};
ghost use Rattle.std.specs.Int.Signed.{mag};
ghost use Rattle.weak_orders.specs.Window.{is_length};
ghost use Rattle.levels.specs.Level.{setting_of, spacings, lowered, nearest, rounded, on_table, level_of, top_ok, spacing_ok, setting_ok};

// A level setting, in hundredths of a dBm: a top and a spacing, or the table where both are 0.
#[repr(C)]
#[derive(Clone, Copy)]
pub struct Setting {
    pub top: i16,
    pub spacing: u16,
    pub table: [i16; 16],
}

// A setting without a table.
pub fn setting_of(top: i16, spacing: u16) -> Setting
    ensures { result ≡ setting_of top spacing }
{
    Setting {
        top,
        spacing,
        table: [0; 16],
    }
}

// The levels are the table's.
pub fn on_table(setting: Setting) -> bool
    ensures { result ≡ on_table setting }
{
    setting.top == 0 && setting.spacing == 0
}

// How many spacings below the top a symbol stands.
fn spacings_of(rule: u8, symbol: u8) -> u8
    ensures { result ≡ spacings rule symbol }
{
    if rule == 1 {
        symbol.saturating_sub(1)
    } else {
        symbol
    }
}

// `count` spacings below the top, not rounded. The product is unsigned, so that one signed operation is left.
fn lowered(setting: Setting, count: u8) -> i32
    ensures { result ≡ lowered setting count }
{
    let drop = u32::from(count) * u32::from(setting.spacing);
    i32::from(setting.top) - drop as i32
}

// The multiple of 25 nearest to a number.
fn nearest(x: u32) -> u32
    requires { x < 2 ^ 26 }
    ensures { result ≡ nearest x }
{
    (x + 12) / 25 * 25
}

// The same on both sides of zero. What is divided is not below zero, since such a quotient would be cut off towards zero.
fn rounded(z: i32) -> i32
    requires { mag z < 2 ^ 25 }
    ensures { result ≡ rounded z }
{
    let size = nearest(z.unsigned_abs()) as i32;
    if z < 0 { -size } else { size }
}

// The level of a symbol, in hundredths of a dBm: the table's entry, or rounded once, from the exact value.
pub fn level(rule: u8, setting: Setting, symbol: u8) -> i32
    ensures { result ≡ level_of rule setting symbol }
{
    let d = spacings_of(rule, symbol);
    if on_table(setting) {
        table::entry(setting.table, d)
    } else {
        rounded(lowered(setting, d))
    }
}

// Test 9 on the top alone, and on the spacing alone. They are wider than in a setting, for values that are not narrowed yet.
pub fn top_ok(top: i32) -> bool
    ensures { result ≡ top_ok top }
{
    (-10000..=2000).contains(&top)
}

pub fn spacing_ok(spacing: u32) -> bool
    ensures { result ≡ spacing_ok spacing }
{
    (25..=500).contains(&spacing)
}

// Test 9, for a number of symbols that passes test 6.
pub fn setting_ok(n: usize, setting: Setting) -> bool
    ensures { result ≡ (is_length n && setting_ok n setting) }
{
    if !weak_orders::is_length(n) {
        return false;
    }
    if on_table(setting) {
        return table::table_ok(setting.table);
    }
    let lowest = lowered(setting, (n - 1) as u8);
    top_ok(i32::from(setting.top)) && spacing_ok(u32::from(setting.spacing)) && -12000 <= lowest
}
