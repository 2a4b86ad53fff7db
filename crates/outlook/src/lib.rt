// The forecast of one prefix over lent tables: each router's early and late row, and which routers differ.
#![tactic(auto)]

ghost use Rattle.std.specs.Prelude.{◌≡◌, ◌-◌, ◌≤◌, length};
ghost use Rattle.model.specs.Columns.{lent_mesh};
ghost use Rattle.model.specs.Rows.{start};
ghost use Rattle.snapshot.specs.Limits.{most_routes};
ghost use Rattle.snapshot.specs.Lent.{tables_of};
ghost use Rattle.rows.specs.Lent.{columns_in, cut};
ghost use Rattle.outlook.specs.Outlook.{whole, Part, Shown, said, Forecasts};

use decide::Differing;
use refusal::{Refusal, Refused};
use rows::{Mesh, Routes};
use snapshot::{Counts, Tables};

// The row at which the routes of a prefix start: behind those of the prefixes below it.
fn start_of(routes: &[u32], prefix: usize) -> usize
    requires { (prefix ≤ length routes.now) × (start routes.now prefix ≤ most_routes) }
    ensures { result ≡ start routes.now prefix }
{
    let mut sum = 0;
    for many in &routes[..prefix] {
        sum += *many as usize;
    }
    sum
}

// The ids, the distances and all routes of tables.
pub fn mesh_of<'a>(tables: &Tables<'a>) -> Mesh<'a>
    ensures ids { result.ids.now ≡ tables.now.ids.now }
    ensures distances { result.distances.now ≡ tables.now.distances.now }
    ensures routes { columns_in result.routes ≡ whole (tables_of tables.now) }
{
    let rows = &tables.rows;
    Mesh {
        ids: tables.ids,
        distances: tables.distances,
        routes: Routes {
            router: rows.router,
            asn: rows.asn,
            preference: rows.preference,
            path: rows.path,
            origin: rows.origin,
            med: rows.med,
            nid: rows.nid,
            peer: rows.peer,
        },
    }
}

// The early and the late row of each router for the routes from one row of a mesh to another, and the routers that differ. The
// routers' rows go to the start of the areas, the entries past the last router stay.
pub fn shown(
    routers: usize,
    first: usize,
    end: usize,
    mesh: &Mesh<'_>,
    early: &mut [u16],
    late: &mut [u16],
) -> Differing
    requires { Part routers first end mesh.now.ids.now mesh.now.distances.now (columns_in mesh.now.routes) early.old late.old }
    ensures { Shown (lent_mesh routers mesh.now.ids.now mesh.now.distances.now (cut first (end - first) (columns_in mesh.now.routes))) result early.old early.new late.old late.new }
{
    let part = Mesh {
        routes: mesh.routes.part(first, end),
        ..*mesh
    };
    decide::decided(&part, &mut early[..routers], &mut late[..routers])
}

// The forecast of the prefix of a number. Checks: ROOM, TABLE, NO PREFIX, in this order.
pub fn forecast(
    counts: Counts,
    tables: &Tables<'_>,
    prefix: u32,
    early: &mut [u16],
    late: &mut [u16],
) -> Result<Differing, Refused>
    ensures { Forecasts counts (tables_of tables.now) prefix early.old late.old (said result) early.new late.new }
{
    let most = snapshot::MOST_ROUTERS as usize;
    if (early.len() < most) | (late.len() < most) {
        return Err(Refused {
            refusal: Refusal::Room,
            place: 0,
        });
    }
    tables::examine(counts, tables).map_err(|refusal| Refused { refusal, place: 0 })?;
    if counts.prefixes <= prefix {
        return Err(Refused {
            refusal: Refusal::NoPrefix,
            place: 0,
        });
    }
    let p = prefix as usize;
    let first = start_of(tables.routes, p);
    let end = first + tables.routes[p] as usize;
    let mesh = mesh_of(tables);
    Ok(shown(counts.routers as usize, first, end, &mesh, early, late))
}
