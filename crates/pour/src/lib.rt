// The second pass over a snapshot, its loops over routes and prefixes: what was judged sound is put into the lent tables.
#![tactic(auto)]

ghost use Rattle.std.specs.Prelude.{◌≡◌, ◌+◌, ◌-◌, ◌≤◌, length};
ghost use Rattle.snapshot.specs.Limits.{most_prefixes, most_routes};
ghost use Rattle.snapshot.specs.Tables.{put_routes, Wide, Room};
ghost use Rattle.snapshot.specs.Lent.{lent_columns, lent_tables, KeepsColumns, Keeps};
ghost use Rattle.fill.specs.Fill.{Spans, routes_from, behind_routes, prefixes_from, lists_in, put_prefixes, filled_from, WideLists};

use snapshot::{LentColumns, LentTables};

// Where a route is to be put, and where it stands in the input.
#[derive(Clone, Copy)]
pub struct Place {
    pub row: usize,
    pub at: usize,
}

// Puts the routes that stand from a place on into the columns, while there is room; returns the place behind the last.
pub fn fill_routes(input: &[u8], from: Place, room: usize, rows: &mut LentColumns<'_>) -> Place
    requires { (from.at ≤ length input.now) × (from.row ≤ room) × Wide room (lent_columns rows.old) }
    ensures filled { (result.row ≡ from.row + length (routes_from (room - from.row) input.now from.at)) × (result.at ≡ behind_routes (room - from.row) input.now from.at)
        × (lent_columns rows.new ≡ put_routes (lent_columns rows.old) from.row (routes_from (room - from.row) input.now from.at)) }
    ensures kept { KeepsColumns rows.old rows.new }
{
    let mut at = from.at;
    for row in from.row..room {
        let kind = cursor::kind_at(input, at);
        if !fill::is_route(input, at, kind) {
            return Place { row, at };
        }
        let four = kind == 7;
        let r = cursor::route_at(input, at, four);
        at += snapshot::route_size(four);
        fill::put_route(row, r, rows);
    }
    Place { row: room, at }
}

// The same into the columns of tables.
fn fill_columns(input: &[u8], from: Place, tables: &mut LentTables<'_>) -> Place
    requires { (from.at ≤ length input.now) × (from.row ≤ most_routes) × Wide most_routes (lent_tables tables.old).rows }
    ensures filled { (result.row ≡ from.row + length (routes_from (most_routes - from.row) input.now from.at)) × (result.at ≡ behind_routes (most_routes - from.row) input.now from.at)
        × ((lent_tables tables.new).rows ≡ put_routes (lent_tables tables.old).rows from.row (routes_from (most_routes - from.row) input.now from.at)) }
    ensures others { (tables.new.ids.now ≡ tables.old.ids.now) × (tables.new.distances.now ≡ tables.old.distances.now)
        × (tables.new.address.now ≡ tables.old.address.now) × (tables.new.bits.now ≡ tables.old.bits.now) × (tables.new.routes.now ≡ tables.old.routes.now) }
    ensures kept { Keeps tables.old tables.new }
{
    let mut rows = LentColumns {
        router: tables.router,
        asn: tables.asn,
        preference: tables.preference,
        path: tables.path,
        origin: tables.origin,
        mark: tables.mark,
        med: tables.med,
        nid: tables.nid,
        peer: tables.peer,
    };
    fill_routes(input, from, snapshot::MOST_ROUTES as usize, &mut rows)
}

// Puts so many prefixes that stand from a place on, each with its routes, into the front of the columns.
fn fill_prefixes(input: &[u8], at: usize, prefixes: usize, tables: &mut LentTables<'_>)
    requires { (at ≤ length input.now) × (prefixes ≤ most_prefixes) × WideLists most_prefixes (lists_in (lent_tables tables.old)) }
    ensures put { lists_in (lent_tables tables.new) ≡ put_prefixes (lists_in (lent_tables tables.old)) (prefixes_from prefixes input.now at 0) }
    ensures others { (tables.new.ids.now ≡ tables.old.ids.now) × (tables.new.distances.now ≡ tables.old.distances.now) }
    ensures kept { Keeps tables.old tables.new }
{
    let mut next = Place { row: 0, at };
    for p in 0..prefixes {
        let first = next.at + snapshot::PREFIX_SIZE;
        if input.len() < first {
            return;
        }
        let network = cursor::network_at(input, next.at);
        let end = fill_columns(input, Place { at: first, ..next }, tables);
        let inside = end.row - next.row;
        fill::put_prefix(p, network, inside as u32, tables);
        next = end;
    }
}

// Puts a snapshot of n routers and so many prefixes into the tables.
pub fn fill_tables(input: &[u8], n: usize, prefixes: usize, tables: &mut LentTables<'_>)
    requires { Spans input.now n × (prefixes ≤ most_prefixes) × Room (lent_tables tables.old) }
    ensures filled { lent_tables tables.new ≡ filled_from input.now n prefixes (lent_tables tables.old) }
    ensures kept { Keeps tables.old tables.new }
{
    let at = fill::behind_distances(n);
    fill::fill_ids(input, n, tables.ids);
    fill::fill_distances(input, n, tables.distances);
    fill_prefixes(input, at, prefixes, tables);
}
