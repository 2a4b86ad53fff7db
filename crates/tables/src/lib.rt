// Judging tables: whether counts and lent tables are those of some snapshot (TABLE). One function for each part of the tables; the
// tests of values are those of crate snapshot, as in reading.
#![tactic(auto)]

ghost use Rattle.std.specs.Prelude.{◌≡◌, ◌+◌, ◌≤◌, ◌<◌, length, eqb, ltb};
ghost use Rattle.model.specs.Rows.{some, column, start};
ghost use Rattle.snapshot.specs.Limits.{most_routers, room_distances, farthest, most_prefixes, most_routes};
ghost use Rattle.snapshot.specs.Plain.{route_is};
ghost use Rattle.snapshot.specs.Tables.{RoomPrefixes, Room, Wide};
ghost use Rattle.snapshot.specs.Lent.{columns_of, tables_of};
ghost use Rattle.tables.specs.Judging.{route_at, late_at, IdGood, CellGood, RouteGood, PrefixGood, Below, InRange, Totalled, Decides, Judged, numbered, Verdicts};

use refusal::Refusal;
use snapshot::{Columns, Counts, Route, Tables};

// Whether counts are in their ranges.
fn counts_good(counts: Counts) -> bool
    ensures { Decides (InRange counts) result }
{
    !(snapshot::count_bad(counts.routers)
        | (snapshot::MOST_PREFIXES < counts.prefixes)
        | (snapshot::MOST_ROUTES < counts.routes))
}

// Whether an id is one of these. All are looked at, so that several are looked at in one step.
fn twin(ids: &[u32], id: u32) -> bool
    ensures { result ≡ some (eqb id) ids.now }
{
    ids.iter()
        .fold(false, |found, other| found | (id == *other))
}

// Whether the id of a router is in its range, and none of the routers before it has it.
fn id_good(ids: &[u32], k: usize) -> bool
    requires { k < length ids.now }
    ensures { Decides (IdGood ids.now k) result }
{
    let id = ids[k];
    !(snapshot::id_bad(id) | twin(&ids[..k], id))
}

// Whether the ids of n routers are in their range, each given once.
fn ids_good(n: usize, ids: &[u32]) -> bool
    requires { n ≤ length ids.now }
    ensures { Decides (Below n (IdGood ids.now)) result }
{
    (0..n).all(|k| id_good(ids, k))
}

// Whether one of these distances is outside its range. All are looked at, so that several are looked at in one step.
fn far(distances: &[u32]) -> bool
    ensures { result ≡ some (ltb farthest) distances.now }
{
    distances.iter().fold(
        false,
        |found, distance| found | snapshot::distance_bad(*distance),
    )
}

// Whether the distances from one router are in their range, and that to itself is 0.
fn row_good(n: usize, distances: &[u32], from: usize) -> bool
    requires { (from < n) × (n ≤ most_routers) × (room_distances ≤ length distances.now) }
    ensures { Decides (Below n (CellGood distances.now from)) result }
{
    let first = from * snapshot::STRIDE;
    !((distances[first + from] != 0) | far(&distances[first..first + n]))
}

// Whether the distances between n routers are in their range.
fn distances_good(n: usize, distances: &[u32]) -> bool
    requires { (n ≤ most_routers) × (room_distances ≤ length distances.now) }
    ensures { Decides (Below n (λ from. Below n (CellGood distances.now from))) result }
{
    (0..n).all(|from| row_good(n, distances, from))
}

// Whether a row of two columns does not rise above the row before it. The first row has none before it.
fn late_at(a: &[u32], b: &[u32], first: usize, row: usize) -> bool
    requires { (first ≤ row) × (row < length a.now) × (row < length b.now) }
    ensures { result ≡ late_at (column a.now) (column b.now) first row }
{
    if first == row {
        return false;
    }
    snapshot::late(a[row - 1], b[row - 1], a[row], b[row])
}

// The route in a row of the columns.
pub fn route_at(rows: &Columns<'_>, row: usize) -> Route
    requires { (row < most_routes) × Wide most_routes (columns_of rows.now) }
    ensures { route_is result ≡ route_at (columns_of rows.now) row }
{
    Route {
        router: rows.router[row],
        asn: rows.asn[row],
        preference: rows.preference[row],
        path: rows.path[row],
        origin: rows.origin[row],
        mark: rows.mark[row],
        med: rows.med[row],
        nid: rows.nid[row],
        peer: rows.peer[row],
    }
}

// Whether the k-th route from a row on is in its ranges, and rises above the one before it. The first has none before it.
fn route_good(routers: u32, rows: &Columns<'_>, at: usize, k: usize) -> bool
    requires { (routers ≤ most_routers) × (at + k < most_routes) × Wide most_routes (columns_of rows.now) }
    ensures { Decides (RouteGood routers (columns_of rows.now) at k) result }
{
    let route = route_at(rows, at + k);
    !(snapshot::route_bad(routers, route) | late_at(rows.router, rows.peer, at, at + k))
}

// Whether so many routes from a row on are in their ranges, and rise.
fn routes_good(routers: u32, rows: &Columns<'_>, at: usize, count: usize) -> bool
    requires { (routers ≤ most_routers) × (at + count ≤ most_routes) × Wide most_routes (columns_of rows.now) }
    ensures { Decides (Below count (RouteGood routers (columns_of rows.now) at)) result }
{
    (0..count).all(|k| route_good(routers, rows, at, k))
}

// Whether a prefix is in its ranges and rises, with its routes, which start at a row.
fn prefix_good(routers: u32, tables: &Tables<'_>, p: usize, at: usize) -> bool
    requires { (routers ≤ most_routers) × (p < most_prefixes) × (at + column tables.now.routes.now p ≤ most_routes)
        × (at ≡ start tables.now.routes.now p) × RoomPrefixes (tables_of tables.now) }
    ensures { Decides (PrefixGood routers (tables_of tables.now) p) result }
{
    let count = tables.routes[p];
    if (snapshot::MOST_IN_PREFIX < count)
        | snapshot::prefix_bad(tables.address[p], tables.bits[p])
        | late_at(tables.address, tables.bits, 0, p)
    {
        return false;
    }
    routes_good(routers, &tables.rows, at, count as usize)
}

// Whether the prefixes are in their ranges and rise, with their routes, and their numbers of routes add up.
fn prefixes_good(counts: Counts, tables: &Tables<'_>) -> bool
    requires { InRange counts × RoomPrefixes (tables_of tables.now) }
    ensures { Decides (Totalled counts (tables_of tables.now)) result }
{
    let mut at = 0;
    for p in 0..counts.prefixes as usize {
        let next = at + tables.routes[p] as usize;
        if (counts.routes as usize) < next {
            return false;
        }
        if !prefix_good(counts.routers, tables, p, at) {
            return false;
        }
        at = next;
    }
    at == counts.routes as usize
}

// Whether counts and tables are those of some snapshot.
fn judge(counts: Counts, tables: &Tables<'_>) -> bool
    requires { Room (tables_of tables.now) }
    ensures { Judged counts (tables_of tables.now) result }
{
    counts_good(counts)
        && ids_good(counts.routers as usize, tables.ids)
        && distances_good(counts.routers as usize, tables.distances)
        && prefixes_good(counts, tables)
}

// The checks of tables that writing and the forecast begin with: ROOM, then TABLE.
pub fn examine(counts: Counts, tables: &Tables<'_>) -> Result<(), Refusal>
    ensures { Verdicts counts (tables_of tables.now) (numbered result) }
{
    if tables.lacks_room() {
        return Err(Refusal::Room);
    }
    if !judge(counts, tables) {
        return Err(Refusal::Table);
    }
    Ok(())
}
