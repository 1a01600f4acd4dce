// The lent list of admissions. `weave_first` is thin: it weaves each admission into its key, and the functions above plan and write the
// keys.
ghost use Rattle.std.specs.Prelude.{◌≡◌, ◌++◌, ◌≤◌, length, drop};
ghost use Rattle.format.specs.Key.{key_of};
ghost use Rattle.zorder.specs.Table.{IsSpreads};
ghost use Rattle.writer.specs.List.{keys_in};

use format::Admission;

// The key of an admission, by a table of spreads.
fn weave(table: &[u16; 256], a: Admission) -> u32
    requires { IsSpreads table.now }
    ensures { result ≡ key_of a.holder a.slot }
{
    zorder::weave_by(table, a.holder, a.slot)
}

// Weaves the list into the first places. The table is made once for all.
pub fn weave_first(list: &[Admission], keys: &mut [u32])
    requires { length list.now ≤ length keys.old }
    ensures { keys.new ≡ keys_in list.now ++ drop (length list.now) keys.old }
{
    let table = zorder::spread_table();
    for (i, admission) in list.iter().enumerate() {
        keys[i] = weave(&table, *admission);
    }
}
