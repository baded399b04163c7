// The verdict of a target over the case with the chosen edges. What no candidate touches is there already, in the tables; a selection is done
// as soon as the target's pair is settled.
ghost use Rattle.adding.specs.Deciding.{Tabled, PreparedWith, Decided};

use crate::asked::Asked;
use crate::choosing::rows_with;
use cases::counts::Counts;
use kernel::basis::Basis;
use kernel::preparing::{lay_counters, lay_sets};
use semantics::value::Value;
use settling::deciding::settle_pair;

// Makes what solving the case with the chosen edges works by, and answers its counts.
fn prepare_with(asked: &Asked, selection: usize, rows: &mut [u16], tables: &mut [u64]) -> Counts
    requires { Tabled asked.now rows.old tables.old }
    ensures { PreparedWith asked.now selection result rows.new tables.new }
{
    let counts = rows_with(asked.counts, asked.slice, asked.list, selection, rows);
    lay_sets(counts, rows, asked.held, tables);
    lay_counters(counts, rows, tables);
    counts
}

// The verdict under a selection. `rows` and `tables` are worked on.
pub fn verdict(asked: &Asked, selection: usize, rows: &mut [u16], tables: &mut [u64]) -> Value
    requires { Tabled asked.now rows.old tables.old }
    ensures { Decided asked.now selection result.0 rows.new tables.new }
{
    let mut valid = [0u64; 64];
    let mut possible = [0u64; 64];
    let counts = prepare_with(asked, selection, rows, tables);
    let basis = Basis {
        counts,
        rows,
        tables,
    };
    settle_pair(&basis, asked.pair, &mut valid, &mut possible)
}
