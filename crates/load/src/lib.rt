// The forecast of one prefix from the bytes of a snapshot: only what that prefix is decided on is put into tables.
#![tactic(auto)]

ghost use Rattle.std.specs.Prelude.{◌≡◌, ◌≤◌, length};
ghost use Rattle.snapshot.specs.Limits.{most_in_prefix};
ghost use Rattle.fill.specs.Fill.{behind_routes};
ghost use Rattle.rows.specs.Lent.{columns_in};
ghost use Rattle.load.specs.Load.{place_from, front, lent_rows, WideRows, Asked, KeepsMesh, Lends, Loaded, Forecast};

use decide::Differing;
use pour::Place;
use rows::{Mesh, Routes};
use snapshot::LentColumns;

// The place behind the routes that stand from a place on.
fn behind_routes(input: &[u8], at: usize) -> usize
    requires { at ≤ length input.now }
    ensures { result ≡ behind_routes most_in_prefix input.now at }
{
    let mut at = at;
    for _ in 0..snapshot::MOST_IN_PREFIX {
        let kind = cursor::kind_at(input, at);
        if !fill::is_route(input, at, kind) {
            return at;
        }
        at += snapshot::route_size(kind == 7);
    }
    at
}

// The place of a prefix, so many behind the one at a place.
fn place_of(input: &[u8], at: usize, more: usize) -> usize
    requires { at ≤ length input.now }
    ensures { result ≡ place_from more input.now at }
{
    let mut at = at;
    for _ in 0..more {
        if input.len() < at + snapshot::PREFIX_SIZE {
            return at;
        }
        at = behind_routes(input, at + snapshot::PREFIX_SIZE);
    }
    at
}

// What a prefix is decided on, lent to be filled: the routers' ids, the table of distances and a column for each field of its routes.
// Nothing is decided on MED marks.
#[derive(Drop)]
struct LentMesh<'a> {
    ids: &'a mut [u32],
    distances: &'a mut [u32],
    router: &'a mut [u32],
    asn: &'a mut [u32],
    preference: &'a mut [u32],
    path: &'a mut [u32],
    origin: &'a mut [u32],
    med: &'a mut [u32],
    nid: &'a mut [u32],
    peer: &'a mut [u32],
}

impl<'a> LentMesh<'a> {
    // The mesh with so many rows, to be read.
    fn mesh(&self, rows: usize) -> Mesh<'_>
        requires { WideRows rows (lent_rows self.now) }
        ensures ids { result.ids.now ≡ self.now.ids.now }
        ensures distances { result.distances.now ≡ self.now.distances.now }
        ensures routes { columns_in result.routes ≡ front rows (lent_rows self.now) }
    {
        Mesh {
            ids: &*self.ids,
            distances: &*self.distances,
            routes: Routes {
                router: &self.router[..rows],
                asn: &self.asn[..rows],
                preference: &self.preference[..rows],
                path: &self.path[..rows],
                origin: &self.origin[..rows],
                med: &self.med[..rows],
                nid: &self.nid[..rows],
                peer: &self.peer[..rows],
            },
        }
    }
}

// Puts what a prefix is decided on into the tables; returns its number of routes, which stand in the first rows. The column of MED
// marks is gone when the decision begins.
fn load(input: &[u8], n: usize, prefix: usize, lent: &mut LentMesh<'_>) -> usize
    requires { Asked input.now n prefix × Lends lent.old.ids.now lent.old.distances.now (lent_rows lent.old) }
    ensures loaded { Loaded input.now n prefix lent.old.ids.now lent.old.distances.now (lent_rows lent.old)
        result lent.new.ids.now lent.new.distances.now (lent_rows lent.new) }
    ensures kept { KeepsMesh lent.old lent.new }
{
    let routes = place_of(input, fill::behind_distances(n), prefix) + snapshot::PREFIX_SIZE;
    fill::fill_ids(input, n, lent.ids);
    fill::fill_distances(input, n, lent.distances);
    let mut mark = [0u32; rows::MOST_ROWS];
    let mut columns = LentColumns {
        router: lent.router,
        asn: lent.asn,
        preference: lent.preference,
        path: lent.path,
        origin: lent.origin,
        mark: &mut mark,
        med: lent.med,
        nid: lent.nid,
        peer: lent.peer,
    };
    let first = Place { row: 0, at: routes };
    pour::fill_routes(input, first, rows::MOST_ROWS, &mut columns).row
}

// The early and the late row of each router for the prefix of a number, and the routers that differ. There is one router for each
// entry of `early`.
pub fn forecast(input: &[u8], prefix: usize, early: &mut [u16], late: &mut [u16]) -> Differing
    requires { Asked input.now (length early.old) prefix × (length late.old ≡ length early.old) }
    ensures { Forecast input.now prefix result early.new late.new }
{
    // A struct that owns these, with a method that lends them, would write each out twice more.
    let mut ids = [0u32; rows::MOST_ROUTERS];
    let mut distances = [0u32; snapshot::ROOM_DISTANCES];
    let mut router = [0u32; rows::MOST_ROWS];
    let mut asn = [0u32; rows::MOST_ROWS];
    let mut preference = [0u32; rows::MOST_ROWS];
    let mut path = [0u32; rows::MOST_ROWS];
    let mut origin = [0u32; rows::MOST_ROWS];
    let mut med = [0u32; rows::MOST_ROWS];
    let mut nid = [0u32; rows::MOST_ROWS];
    let mut peer = [0u32; rows::MOST_ROWS];
    let mut lent = LentMesh {
        ids: &mut ids,
        distances: &mut distances,
        router: &mut router,
        asn: &mut asn,
        preference: &mut preference,
        path: &mut path,
        origin: &mut origin,
        med: &mut med,
        nid: &mut nid,
        peer: &mut peer,
    };
    let rows = load(input, early.len(), prefix, &mut lent);
    decide::decided(&lent.mesh(rows), early, late)
}
