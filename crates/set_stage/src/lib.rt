// Sets of states of a circuit: the table of edges of a plan of its variables, which the sets are made from.
#![tactic(auto)]

ghost use Rattle.std.specs.Prelude.{◌≡◌, ◌+◌, ◌*◌, ◌≤◌, ◌<◌, length, get_or};
ghost use Rattle.layout.specs.Words.{circuit_in};
ghost use Rattle.diagram_rows.specs.Words.{Prepared};
ghost use Rattle.state_sets.specs.Sets as S;
ghost use Rattle.set_stage.specs.Table as T;

use layout::Layout;

// Puts row r of a plan into the table; false where the diagram is full or an edge is absent.
fn put_row(
    w: &mut [u32],
    m: &[u32],
    layout: Layout,
    b: usize,
    plan: &[u32],
    r: usize,
    table: &mut [u32],
) -> bool
    requires prepared { Prepared m.now layout }
    requires row_room { T.RowRoom plan.now r (length table.old) }
    ensures { S.left w.new table.new result
        ≡ T.row_put (circuit_in m.now) b plan.now r (S.sets_of w.old table.old) }
{
    let vars = plan[0] as usize;
    let at = 258 + r * (vars + 2);
    let end = at + vars + 2;
    diagram_rows::make_row(w, m, layout, b, plan, r as u32, &mut table[at..end])
}

// The same, and once more after a collection.
fn put_row_again(
    w: &mut [u32],
    m: &[u32],
    layout: Layout,
    b: usize,
    plan: &[u32],
    r: usize,
    table: &mut [u32],
) -> bool
    requires prepared { Prepared m.now layout }
    requires row_room { T.RowRoom plan.now r (length table.old) }
    ensures { S.left w.new table.new result
        ≡ S.again (T.row_put (circuit_in m.now) b plan.now r) (S.sets_of w.old table.old) }
{
    if put_row(w, m, layout, b, plan, r, table) {
        return true;
    }
    match collection::collect(w, table) {
        Err(_) => false,
        Ok(_) => put_row(w, m, layout, b, plan, r, table),
    }
}

// Puts so many rows of a plan into the table, from the first on.
pub fn put_rows(
    w: &mut [u32],
    m: &[u32],
    layout: Layout,
    b: usize,
    plan: &[u32],
    rows: usize,
    table: &mut [u32],
) -> bool
    requires prepared { Prepared m.now layout }
    requires rows_room { T.RowsRoom plan.now rows (length table.old) }
    ensures { S.left w.new table.new result
        ≡ T.rows_put (circuit_in m.now) b plan.now rows (S.sets_of w.old table.old) }
{
    let mut r = 0;
    while r < rows {
        if !put_row_again(w, m, layout, b, plan, r, table) {
            return false;
        }
        r += 1;
    }
    true
}
