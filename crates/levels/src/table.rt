// A level table: sixteen levels in place of even spacing. A table that loading would refuse counts as none.
ghost use Rattle.std.specs.Prelude.{◌≡◌, pos, get_or};
ghost use Rattle.levels.specs.Table.{level_allowed, falls, table_ok};

// Whether a table may hold a level: from -12000 to 2000, and a multiple of 25.
pub fn level_allowed(level: i32) -> bool
    ensures { result ≡ level_allowed level }
{
    (-12000..=2000).contains(&level) && level % 25 == 0
}

// Each level is lower than the one before.
pub fn falls(table: [i16; 16]) -> bool
    ensures { result ≡ falls table }
{
    table.is_sorted_by(|high, low| low < high)
}

// Whether loading would accept the table.
pub fn table_ok(table: [i16; 16]) -> bool
    ensures { result ≡ table_ok table }
{
    table.iter().all(|&level| level_allowed(i32::from(level))) && falls(table)
}

// The entry for d, and 0 past the end.
pub fn entry(table: [i16; 16], d: u8) -> i32
    ensures { result ≡ get_or table d (pos 0) }
{
    table
        .get(usize::from(d))
        .map_or(0, |&level| i32::from(level))
}
