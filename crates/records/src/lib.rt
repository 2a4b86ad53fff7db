// A record of each kind, put into a slice at a place: its kind byte, then its fields.
#![tactic(auto)]

ghost use Rattle.std.specs.Prelude.{◌≡◌, [], ◌∷◌, ◌+◌, ◌≤◌, ◌<◌, length};
ghost use Rattle.std.proofs.lemmas.List.Edits.{sets};
ghost use Rattle.model.specs.Rows.{column};
ghost use Rattle.snapshot.specs.Records.{count_form, router_form, distance_form, prefix_form, route_forms, end_form, written, written_in, size};
ghost use Rattle.snapshot.specs.Format.{route_fields};
ghost use Rattle.snapshot.specs.Limits.{most_routes};
ghost use Rattle.snapshot.specs.Tables.{Wide};
ghost use Rattle.snapshot.specs.Lent.{columns_of};
ghost use Rattle.tables.specs.Judging.{route_at};
ghost use Rattle.records.specs.Putting.{Space, Puts};

use snapshot::Columns;

// The number of routers.
pub fn put_count(out: &mut [u8], at: usize, n: u32)
    requires { at + size count_form ≤ length out.old }
    ensures { out.new ≡ sets out.old at (written count_form (n ∷ [])) }
{
    wire::put8(out, at, 1);
    wire::put8(out, at + 1, n);
}

// A router's index and id.
pub fn put_router(out: &mut [u8], at: usize, index: u32, id: u32)
    requires { at + size router_form ≤ length out.old }
    ensures { out.new ≡ sets out.old at (written router_form (index ∷ id ∷ [])) }
{
    wire::put8(out, at, 2);
    wire::put8(out, at + 1, index);
    wire::put32(out, at + 2, id);
}

// The distance from one router to another, which stands in a cell of the table. It is read behind the bytes before it: its four bytes are
// then stored as one.
pub fn put_distance(out: &mut [u8], at: usize, from: u32, to: u32, distances: &[u32], cell: usize)
    requires { (at + size distance_form ≤ length out.old) × (cell < length distances.now) }
    ensures { out.new ≡ sets out.old at (written distance_form (from ∷ to ∷ column distances.now cell ∷ [])) }
{
    wire::put8(out, at, 3);
    wire::put8(out, at + 1, from);
    wire::put8(out, at + 2, to);
    wire::put32(out, at + 3, distances[cell]);
}

// A prefix's address and length.
pub fn put_prefix(out: &mut [u8], at: usize, address: u32, bits: u32)
    requires { at + size prefix_form ≤ length out.old }
    ensures { out.new ≡ sets out.old at (written prefix_form (address ∷ bits ∷ [])) }
{
    wire::put8(out, at, 4);
    wire::put32(out, at + 1, address);
    wire::put8(out, at + 5, bits);
}

// The route in a row: kind, router and neighbour AS in the form that the AS chooses, and behind them what is alike in both forms. Returns the
// place behind it. Each field is read behind the bytes before it: its bytes are then stored as one.
pub fn put_route(out: &mut [u8], at: usize, rows: &Columns<'_>, row: usize) -> usize
    requires { (row < most_routes) × Wide most_routes (columns_of rows.now) × Space (written_in route_forms (route_fields (route_at (columns_of rows.now) row))) out.old at }
    ensures { Puts (written_in route_forms (route_fields (route_at (columns_of rows.now) row))) out.old at out.new result }
{
    let four = snapshot::four_byte(rows.asn[row]);
    wire::put8(out, at, snapshot::route_kind(four) as u32);
    wire::put8(out, at + 1, rows.router[row]);
    let behind = if four {
        wire::put32(out, at + 2, rows.asn[row]);
        at + 6
    } else {
        wire::put16(out, at + 2, rows.asn[row]);
        at + 4
    };
    wire::put32(out, behind, rows.preference[row]);
    wire::put16(out, behind + 4, rows.path[row]);
    wire::put8(out, behind + 6, rows.origin[row]);
    wire::put8(out, behind + 7, rows.mark[row]);
    wire::put32(out, behind + 8, rows.med[row]);
    wire::put32(out, behind + 12, rows.nid[row]);
    wire::put32(out, behind + 16, rows.peer[row]);
    behind + 20
}

// The end, with the number of records before it.
pub fn put_end(out: &mut [u8], at: usize, records: u32)
    requires { at + size end_form ≤ length out.old }
    ensures { out.new ≡ sets out.old at (written end_form (records ∷ [])) }
{
    wire::put8(out, at, 6);
    wire::put32(out, at + 1, records);
}
