// The columns of literals in a circuit's words.
#![tactic(auto)]

ghost use Rattle.std.specs.Prelude.{◌≡◌};
ghost use Rattle.layout.specs.Layout.{Counted};
ghost use Rattle.columns.specs.Columns.{spaced, column_of};

// n words, the first at `at`, each `stride` after the one before.
#[derive(Clone, Copy)]
pub struct Column {
    pub at: usize,
    pub stride: usize,
    pub n: usize,
}

// What a literal is in a circuit. An input, a latch or a gate defines it; or it is used, as a latch's next literal, as a root (an
// output, a bad property or a constraint), or as a gate's left or right operand.
#[derive(Clone, Copy)]
pub enum Role {
    Input,
    Latch,
    Gate,
    Next,
    Root,
    Left,
    Right,
}

fn spaced(at: usize, stride: usize, n: usize) -> Column
    ensures { result ≡ spaced at stride n }
{
    Column { at, stride, n }
}

// The column of the literals with a role.
pub fn column_of(w: &[u32], role: Role) -> Column
    requires { Counted w.now }
    ensures { result ≡ column_of w.now role }
{
    let p = layout::layout_of(w);
    match role {
        Role::Input => spaced(7, 1, p.i),
        Role::Latch => spaced(p.latches, 3, p.l),
        Role::Gate => spaced(p.gates, 3, p.a),
        Role::Next => spaced(p.latches + 1, 3, p.l),
        Role::Root => spaced(p.outputs, 1, p.o + p.b + p.c),
        Role::Left => spaced(p.gates + 1, 3, p.a),
        Role::Right => spaced(p.gates + 2, 3, p.a),
    }
}
