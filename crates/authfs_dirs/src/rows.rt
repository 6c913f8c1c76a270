// The names of one directory in the order of their making.
ghost use Rattle.std.specs.Prelude.{◌≡◌, ◌≤◌, length, drop, map, filter};
ghost use Rattle.authfs_dirs.specs.Tables.{Rises, Has, StandsAt, slot_of, living, living_after, marked, is_living};

/// A name as it was made, and whether it is still there.
#[derive(Drop)]
pub(crate) struct Row {
    pub(crate) cookie: u64,
    pub(crate) name: Vec<u8>,
    pub(crate) node: u64,
    pub(crate) live: bool,
}

/// The place of the first row whose cookie is above this one, or the number of rows.
pub(crate) fn place_after(rows: &[Row], cookie: u64) -> usize
    requires { Rises 3 (map slot_of rows.now) }
    ensures place { living_after cookie rows.now ≡ living (drop result (map slot_of rows.now)) }
    ensures bound { result ≤ length rows.now }
{
    rows.partition_point(|row| row.cookie <= cookie)
}

// The place of the row with this cookie.
fn place_of(rows: &[Row], cookie: u64) -> usize
    requires rising { Rises 3 (map slot_of rows.now) }
    requires has { Has cookie (map slot_of rows.now) }
    ensures { StandsAt cookie rows.now result }
{
    rows.partition_point(|row| row.cookie < cookie)
}

/// Marks the row with this cookie as that of a removed name.
pub(crate) fn mark(rows: &mut Vec<Row>, cookie: u64)
    requires rising { Rises 3 (map slot_of rows.old.items) }
    requires has { Has cookie (map slot_of rows.old.items) }
    ensures marked { map slot_of rows.new.items ≡ marked cookie (map slot_of rows.old.items) }
    ensures len { length rows.new.items ≡ length rows.old.items }
{
    let place = place_of(rows.as_slice(), cookie);
    rows[place].live = false;
}

/// Lets go of the rows of removed names.
pub(crate) fn sweep(rows: &mut Vec<Row>)
    ensures { map slot_of rows.new.items ≡ filter is_living (map slot_of rows.old.items) }
{
    rows.retain(|row| row.live);
}
