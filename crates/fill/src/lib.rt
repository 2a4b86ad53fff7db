// The second pass over a snapshot: what was judged sound is put into the lent tables.
#![tactic(auto)]

ghost use Rattle.std.specs.Prelude.{◌≡◌, cond, ◌∷◌, [], ◌+◌, ◌-◌, ◌*◌, ◌≤◌, ◌<◌, leb, length, get_or, set};
ghost use Rattle.std.proofs.lemmas.List.Edits.{sets};
ghost use Rattle.model.specs.Rows.{table};
ghost use Rattle.snapshot.specs.Limits.{most_routers, room_distances};
ghost use Rattle.snapshot.specs.Plain.{route_is};
ghost use Rattle.snapshot.specs.Tables.{put_routes, Wide};
ghost use Rattle.snapshot.specs.Lent.{lent_columns, lent_tables, KeepsColumns, Keeps};
ghost use Rattle.fill.specs.Fill.{ids_in, distance_in, entry_in, behind_distances, Spans, is_route, with_prefix};

use cursor::Network;
use snapshot::{LentColumns, LentTables, Route};

// How far behind the routers the first distance stands: the count record, a kind byte and a pair.
const FIRST_DISTANCE: usize = snapshot::COUNT_SIZE + 3;

// Puts the ids of n routers into the front of a table.
pub fn fill_ids(input: &[u8], n: usize, ids: &mut [u32])
    requires { Spans input.now n × (most_routers ≤ length ids.old) }
    ensures { ids.new ≡ sets ids.old 0 (ids_in input.now n) }
{
    let front = &mut ids[..n];
    for (i, id) in front.iter_mut().enumerate() {
        *id = cursor::id_at(input, snapshot::COUNT_SIZE + snapshot::ROUTER_SIZE * i);
    }
}

// Where the prefixes of n routers begin.
pub fn behind_distances(n: usize) -> usize
    requires { (1 ≤ n) × (n ≤ most_routers) }
    ensures { result ≡ behind_distances n }
{
    snapshot::ROUTER_SIZE * n + snapshot::COUNT_SIZE + snapshot::DISTANCE_SIZE * (n * (n - 1))
}

// How many pairs of a router come before the one with `to`.
fn before_in_row(from: usize, to: usize) -> usize
    ensures { result ≡ cond (leb to from) to (to - 1) }
{
    if to <= from {
        return to;
    }
    to - 1
}

// The distance from one of n routers to another, 0 from one to itself.
fn distance_in(input: &[u8], n: usize, from: usize, to: usize) -> u32
    requires { Spans input.now n × (from < n) × (to < n) }
    ensures { result ≡ distance_in input.now n from to }
{
    if from == to {
        return 0;
    }
    let before = from * (n - 1) + before_in_row(from, to);
    wire::get32(
        input,
        snapshot::DISTANCE_SIZE * before + (snapshot::ROUTER_SIZE * n + FIRST_DISTANCE),
    )
}

// Puts the distances from one router to each into the front of its row.
fn fill_row(input: &[u8], from: usize, row: &mut [u32])
    requires { Spans input.now (length row.old) × (from < length row.old) }
    ensures { row.new ≡ table (length row.old) (distance_in input.now (length row.old) from) }
{
    let n = row.len();
    for (to, distance) in row.iter_mut().enumerate() {
        *distance = distance_in(input, n, from, to);
    }
}

// Puts the distances of n routers into a table, from times the stride, plus to; equal pairs hold 0.
pub fn fill_distances(input: &[u8], n: usize, distances: &mut [u32])
    requires { Spans input.now n × (room_distances ≤ length distances.old) }
    ensures { distances.new ≡ table (length distances.old) (entry_in input.now n distances.old) }
{
    for from in 0..n {
        let first = from * snapshot::STRIDE;
        fill_row(input, from, &mut distances[first..first + n]);
    }
}

// Puts a route into a row of the columns.
pub fn put_route(row: usize, r: Route, rows: &mut LentColumns<'_>)
    requires { Wide (row + 1) (lent_columns rows.old) }
    ensures put { lent_columns rows.new ≡ put_routes (lent_columns rows.old) row (route_is r ∷ []) }
    ensures kept { KeepsColumns rows.old rows.new }
{
    rows.router[row] = r.router;
    rows.asn[row] = r.asn;
    rows.preference[row] = r.preference;
    rows.path[row] = r.path;
    rows.origin[row] = r.origin;
    rows.mark[row] = r.mark;
    rows.med[row] = r.med;
    rows.nid[row] = r.nid;
    rows.peer[row] = r.peer;
}

// Whether a whole route record stands at a place, given the kind byte there.
pub fn is_route(input: &[u8], at: usize, kind: u8) -> bool
    requires { (at ≤ length input.now) × (kind ≡ get_or input.now at 0) }
    ensures { result ≡ is_route input.now at }
{
    let size = snapshot::route_size(kind == 7);
    snapshot::route_stands(kind) & (at + size <= input.len())
}

// Puts a prefix and its number of routes into a row of the tables.
pub fn put_prefix(p: usize, network: Network, inside: u32, tables: &mut LentTables<'_>)
    requires { (p < length tables.old.address.now) × (p < length tables.old.bits.now) × (p < length tables.old.routes.now) }
    ensures put { lent_tables tables.new ≡ with_prefix (lent_tables tables.old) p network.address network.bits inside }
    ensures kept { Keeps tables.old tables.new }
{
    tables.address[p] = network.address;
    tables.bits[p] = network.bits;
    tables.routes[p] = inside;
}
