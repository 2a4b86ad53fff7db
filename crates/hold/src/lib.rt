// What each router holds, early and late, over a lent mesh: what the eight steps give it where the others stand at the rows of their
// own at which the contest comes to rest.
#![tactic(auto)]

ghost use Rattle.std.specs.Prelude.{◌≡◌, length};
ghost use Rattle.model.specs.Rows.{table};
ghost use Rattle.model.specs.Columns.{choice_of, Placed, Rests, ForecastRows};
ghost use Rattle.rows.specs.Lent.{columns_in, mesh_in};

use rows::Mesh;

// What each router chooses where the routers hold the rows `own` at rest: only those that hold no row of their own have to choose.
fn hold(mesh: &Mesh<'_>, own: &[u16], held: &mut [u16])
    requires placed { Placed (length own.now) mesh.now.ids.now mesh.now.distances.now (columns_in mesh.now.routes) }
    requires rests { Rests (length own.now) mesh.now.ids.now mesh.now.distances.now (columns_in mesh.now.routes) own.now }
    requires held_len { length held.old ≡ length own.now }
    ensures { held.new ≡ table (length own.now) (choice_of (length own.now) mesh.now.ids.now mesh.now.distances.now (columns_in mesh.now.routes) own.now) }
{
    for (r, row) in held.iter_mut().enumerate() {
        if own[r] != rows::NONE {
            *row = own[r];
        } else {
            *row = choice::choose(mesh, own, r as u32);
        }
    }
}

// No router holds a row.
fn vacant() -> [u16; rows::MOST_ROUTERS] {
    [rows::NONE; rows::MOST_ROUTERS]
}

// The early and the late row of each router.
pub fn forecast_rows(mesh: &Mesh<'_>, early: &mut [u16], late: &mut [u16])
    requires placed { Placed (length early.old) mesh.now.ids.now mesh.now.distances.now (columns_in mesh.now.routes) }
    requires late_len { length late.old ≡ length early.old }
    ensures { ForecastRows (mesh_in (length early.old) mesh.now) early.new late.new }
{
    let mut vacant_early = vacant();
    let mut vacant_late = vacant();
    let routers = early.len();
    let first = &mut vacant_early[..routers];
    let last = &mut vacant_late[..routers];
    stand::own_rows(&mesh.routes, first, last);
    hold(mesh, first, early);
    hold(mesh, last, late);
}
