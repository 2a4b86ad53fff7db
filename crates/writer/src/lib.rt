// Writing a snapshot from lent tables. One function for each section of the format puts its bytes and returns the next place.
#![tactic(auto)]

ghost use Rattle.std.specs.Prelude.{◌≡◌, ◌+◌, ◌*◌, ◌-◌, ◌≤◌, ◌<◌, length, T};
ghost use Rattle.model.specs.Rows.{table, column, start};
ghost use Rattle.snapshot.specs.Limits.{most_routers, room_distances, most_prefixes, most_routes};
ghost use Rattle.snapshot.specs.Records.{four_byte_route_form, size};
ghost use Rattle.snapshot.specs.Format.{routers_bytes, prefixes_bytes, routes_bytes};
ghost use Rattle.snapshot.specs.Tables.{short, RoomPrefixes, Wide};
ghost use Rattle.snapshot.specs.Lent.{columns_of, tables_of};
ghost use Rattle.snapshot.specs.Ranges.{none};
ghost use Rattle.tables.specs.Judging.{routes_at, prefix_at, InRange, Holding};
ghost use Rattle.records.specs.Putting.{Space, Puts};
ghost use Rattle.writer.specs.Writing.{row_bytes, rows_bytes, network_bytes, prefix_from, prefix_bytes, pair_count, routes_of, size_of, records_of, said, Writes};

use refusal::{Refusal, Refused};
use snapshot::{Columns, Counts, Tables};

// The router records.
fn put_ids(n: usize, ids: &[u32], out: &mut [u8], first: usize) -> usize
    requires { (n ≤ most_routers) × (most_routers ≤ length ids.now) × Space (routers_bytes 0 (table n (column ids.now))) out.old first }
    ensures { Puts (routers_bytes 0 (table n (column ids.now))) out.old first out.new result }
{
    let mut at = first;
    for (k, id) in ids[..n].iter().enumerate() {
        records::put_router(out, at, k as u32, *id);
        at += snapshot::ROUTER_SIZE;
    }
    at
}

// The distance records from one router.
fn put_row(n: usize, distances: &[u32], from: usize, out: &mut [u8], first: usize) -> usize
    requires { (n ≤ most_routers) × (from < n) × (room_distances ≤ length distances.now) × Space (row_bytes distances.now n from) out.old first }
    ensures { Puts (row_bytes distances.now n from) out.old first out.new result }
{
    let mut at = first;
    for to in 0..n {
        if from == to {
            continue;
        }
        records::put_distance(
            out,
            at,
            from as u32,
            to as u32,
            distances,
            from * snapshot::STRIDE + to,
        );
        at += snapshot::DISTANCE_SIZE;
    }
    at
}

// The distance records.
fn put_distances(n: usize, distances: &[u32], out: &mut [u8], first: usize) -> usize
    requires { (n ≤ most_routers) × (room_distances ≤ length distances.now) × Space (rows_bytes distances.now n) out.old first }
    ensures { Puts (rows_bytes distances.now n) out.old first out.new result }
{
    let mut at = first;
    for from in 0..n {
        at = put_row(n, distances, from, out, at);
    }
    at
}

// The records that come before the prefixes: the number of routers, the routers, the distances.
fn put_network(n: usize, tables: &Tables<'_>, out: &mut [u8]) -> usize
    requires { (n ≤ most_routers) × (most_routers ≤ length tables.now.ids.now) × (room_distances ≤ length tables.now.distances.now)
        × Space (network_bytes tables.now.ids.now tables.now.distances.now n) out.old 0 }
    ensures { Puts (network_bytes tables.now.ids.now tables.now.distances.now n) out.old 0 out.new result }
{
    records::put_count(out, 0, n as u32);
    let at = put_ids(n, tables.ids, out, snapshot::COUNT_SIZE);
    put_distances(n, tables.distances, out, at)
}

// The records of so many routes from a row on.
fn put_routes(rows: &Columns<'_>, row: usize, count: usize, out: &mut [u8], first: usize) -> usize
    requires { (row + count ≤ most_routes) × Wide most_routes (columns_of rows.now) × Space (routes_bytes (routes_at (columns_of rows.now) row count)) out.old first }
    ensures { Puts (routes_bytes (routes_at (columns_of rows.now) row count)) out.old first out.new result }
{
    let mut at = first;
    for k in 0..count {
        at = records::put_route(out, at, rows, row + k);
    }
    at
}

// The record of a prefix, and those of its routes, which start at a row.
fn put_prefix(tables: &Tables<'_>, p: usize, row: usize, out: &mut [u8], first: usize) -> usize
    requires { (p < most_prefixes) × (row + column tables.now.routes.now p ≤ most_routes)
        × RoomPrefixes (tables_of tables.now) × Space (prefix_bytes (prefix_from (tables_of tables.now) p row)) out.old first }
    ensures { Puts (prefix_bytes (prefix_from (tables_of tables.now) p row)) out.old first out.new result }
{
    let count = tables.routes[p] as usize;
    records::put_prefix(out, first, tables.address[p], tables.bits[p]);
    put_routes(&tables.rows, row, count, out, first + snapshot::PREFIX_SIZE)
}

// The records of so many prefixes, each with its routes.
fn put_prefixes(n: usize, tables: &Tables<'_>, out: &mut [u8], first: usize) -> usize
    requires { (n ≤ most_prefixes) × (start tables.now.routes.now n ≤ most_routes) × RoomPrefixes (tables_of tables.now)
        × Space (prefixes_bytes (table n (prefix_at (tables_of tables.now)))) out.old first }
    ensures { Puts (prefixes_bytes (table n (prefix_at (tables_of tables.now)))) out.old first out.new result }
{
    let mut at = first;
    let mut row = 0;
    for (p, count) in tables.routes[..n].iter().enumerate() {
        at = put_prefix(tables, p, row, out, at);
        row += *count as usize;
    }
    at
}

// The pairs of n routers.
fn pair_count(n: u32) -> u32
    requires { (1 ≤ n) × (n ≤ most_routers) }
    ensures { (result ≡ pair_count n) × (result ≤ pair_count most_routers) }
{
    n * (n - 1)
}

// The bytes of the records of routes with these ASes.
fn routes_size(asn: &[u32]) -> usize
    requires { length asn.now ≤ most_routes }
    ensures { (result ≡ routes_of asn.now (length asn.now)) × (result ≤ size four_byte_route_form * most_routes) }
{
    asn.iter()
        .map(|asn| snapshot::route_size(snapshot::four_byte(*asn)))
        .sum()
}

// The bytes of the snapshot with these counts and ASes.
fn size(counts: Counts, asn: &[u32]) -> usize
    requires { InRange counts × (most_routes ≤ length asn.now) }
    ensures { result ≡ size_of counts asn.now }
{
    let pairs = pair_count(counts.routers);
    let routes = routes_size(&asn[..counts.routes as usize]);
    snapshot::COUNT_SIZE
        + snapshot::ROUTER_SIZE * (counts.routers as usize)
        + snapshot::DISTANCE_SIZE * (pairs as usize)
        + snapshot::PREFIX_SIZE * (counts.prefixes as usize)
        + routes
        + snapshot::END_SIZE
}

// Its records before the end record.
fn record_count(counts: Counts) -> u32
    requires { InRange counts }
    ensures { result ≡ records_of counts }
{
    let pairs = pair_count(counts.routers);
    1 + counts.routers + pairs + counts.prefixes + counts.routes
}

// Writes the snapshot that is held, where the output has room for it.
fn write_held(counts: Counts, tables: &Tables<'_>, out: &mut [u8]) -> Result<usize, Refused>
    requires { T (none (short (tables_of tables.now))) × Holding counts (tables_of tables.now) }
    ensures { Writes counts (tables_of tables.now) out.old (said result) out.new }
{
    let n = size(counts, tables.rows.asn);
    if out.len() < n {
        return Err(Refused {
            refusal: Refusal::Room,
            place: 0,
        });
    }
    let records = record_count(counts);
    let prefixes = put_network(counts.routers as usize, tables, out);
    let end = put_prefixes(counts.prefixes as usize, tables, out, prefixes);
    records::put_end(out, end, records);
    Ok(end + snapshot::END_SIZE)
}

// Writes the snapshot that counts and tables hold to the start of the output. Refused as ROOM where a table is shorter than its limit,
// TABLE where they are not those of any snapshot, ROOM where the output is too short; then nothing is altered.
pub fn write_snapshot(counts: Counts, tables: &Tables<'_>, out: &mut [u8]) -> Result<usize, Refused>
    ensures { Writes counts (tables_of tables.now) out.old (said result) out.new }
{
    tables::examine(counts, tables).map_err(|refusal| Refused { refusal, place: 0 })?;
    write_held(counts, tables, out)
}
