// The snapshot: its definitions and theorems (open proofs/Theorems.antt first), its limits, the sizes of its records, and the tests
// of its ranges and of the tables' room, which reading and the judging of tables share.
#![tactic(auto)]

ghost use Rattle.std.specs.Prelude.{◌≡◌, false, not};
ghost use Rattle.snapshot.specs.Ranges.{any_of, count_tests, id_tests, distance_tests, prefix_tests, asn_tests, route_tests, rises};
ghost use Rattle.snapshot.specs.Records.{four_byte, route_form_by, route_forms, stands, size};
ghost use Rattle.snapshot.specs.Plain.{route_is};
ghost use Rattle.snapshot.specs.Tables.{short};
ghost use Rattle.snapshot.specs.Lent.{tables_of, lent_tables, owned_tables, zeros};

// The limits, with the names of specs/Limits.antt.
pub const MOST_ROUTERS: u32 = 64;

pub const STRIDE: usize = 64;

pub const ROOM_DISTANCES: usize = 4096;

pub const FARTHEST: u32 = 16777215;

pub const MOST_PREFIXES: u32 = 64;

pub const MOST_BITS: u32 = 32;

pub const MOST_IN_PREFIX: u32 = 256;

pub const MOST_ROUTES: u32 = 1024;

pub const STAND_IN_ASN: u32 = 23456;

pub const LAST_TWO_BYTE_ASN: u32 = 65535;

pub const LAST_ASN: u32 = 4294967294;

pub const LONGEST_PATH: u32 = 65535;

pub const LAST_ORIGIN: u32 = 2;

// The bytes of the longest snapshot; of a longer input so many and one more decide.
pub const LONGEST: usize = 55623;

// The bytes of a record of each kind, its kind byte among them.
pub const COUNT_SIZE: usize = 2;

pub const ROUTER_SIZE: usize = 6;

pub const DISTANCE_SIZE: usize = 7;

pub const PREFIX_SIZE: usize = 6;

pub const ROUTE_SIZE: usize = 24;

pub const FOUR_BYTE_ROUTE_SIZE: usize = 26;

pub const END_SIZE: usize = 5;

// How many of each the tables hold.
#[derive(Clone, Copy)]
pub struct Counts {
    pub routers: u32,
    pub prefixes: u32,
    pub routes: u32,
}

// A route: its router, neighbour AS, local preference, path length, origin, MED mark, MED, neighbour id and peer address.
#[derive(Clone, Copy)]
pub struct Route {
    pub router: u32,
    pub asn: u32,
    pub preference: u32,
    pub path: u32,
    pub origin: u32,
    pub mark: u32,
    pub med: u32,
    pub nid: u32,
    pub peer: u32,
}

// Whether a number of routers is outside its range.
pub fn count_bad(n: u32) -> bool
    ensures { result ≡ any_of (count_tests n) }
{
    (n == 0) | (MOST_ROUTERS < n)
}

// Whether a router id is outside its range.
pub fn id_bad(id: u32) -> bool
    ensures { result ≡ any_of (id_tests id) }
{
    id == 0
}

// Whether a distance is outside its range.
pub fn distance_bad(distance: u32) -> bool
    ensures { result ≡ any_of (distance_tests distance) }
{
    FARTHEST < distance
}

// Whether a prefix length is outside its range, or an address bit is set beyond it.
pub fn prefix_bad(address: u32, bits: u32) -> bool
    ensures { result ≡ any_of (prefix_tests address bits) }
{
    if MOST_BITS < bits {
        return true;
    }
    (address as u64) % (1u64 << (MOST_BITS - bits)) != 0
}

// Whether an AS is past those of two bytes: its routes have records of kind 7.
pub fn four_byte(asn: u32) -> bool
    ensures { result ≡ four_byte asn }
{
    LAST_TWO_BYTE_ASN < asn
}

// The kind of a route's record, by whether its AS is past those of two bytes.
pub fn route_kind(four: bool) -> u8
    ensures { result ≡ (route_form_by four).kind }
{
    if four { 7 } else { 5 }
}

// Whether a kind is a route's.
pub fn route_stands(kind: u8) -> bool
    ensures { result ≡ stands route_forms kind }
{
    kind == route_kind(kind == 7)
}

// The size of a route's record.
pub fn route_size(four: bool) -> usize
    ensures { result ≡ size (route_form_by four) }
{
    if four {
        FOUR_BYTE_ROUTE_SIZE
    } else {
        ROUTE_SIZE
    }
}

// Whether a neighbour AS is outside its range.
pub fn asn_bad(asn: u32) -> bool
    ensures { result ≡ any_of (asn_tests asn) }
{
    (asn == 0) | (asn == STAND_IN_ASN) | (asn == LAST_TWO_BYTE_ASN) | (LAST_ASN < asn)
}

// Whether a field of a route is outside its range, where there are so many routers.
pub fn route_bad(routers: u32, r: Route) -> bool
    ensures { result ≡ any_of (route_tests routers (route_is r)) }
{
    (routers <= r.router)
        | asn_bad(r.asn)
        | (r.path == 0)
        | (LONGEST_PATH < r.path)
        | (LAST_ORIGIN < r.origin)
        | (1 < r.mark)
        | ((r.mark == 0) & (r.med != 0))
        | (r.nid == 0)
        | (r.peer == 0)
}

// Whether (c, d) does not rise above (a, b), which stands before it: prefixes by address, then length; routes by router, then peer.
pub fn late(a: u32, b: u32, c: u32, d: u32) -> bool
    ensures { result ≡ not (rises a b c d) }
{
    !((a < c) | ((a == c) & (b < d)))
}

// The columns of the routes, lent to be read.
#[derive(Clone, Copy)]
pub struct Columns<'a> {
    pub router: &'a [u32],
    pub asn: &'a [u32],
    pub preference: &'a [u32],
    pub path: &'a [u32],
    pub origin: &'a [u32],
    pub mark: &'a [u32],
    pub med: &'a [u32],
    pub nid: &'a [u32],
    pub peer: &'a [u32],
}

// The tables of a snapshot, lent to be read: router ids, distances, a column for each field of a prefix, one with its number of routes,
// and the columns of the routes.
#[derive(Clone, Copy)]
pub struct Tables<'a> {
    pub ids: &'a [u32],
    pub distances: &'a [u32],
    pub address: &'a [u32],
    pub bits: &'a [u32],
    pub routes: &'a [u32],
    pub rows: Columns<'a>,
}

// The columns of the routes, lent to be filled.
#[derive(Drop)]
pub struct LentColumns<'a> {
    pub router: &'a mut [u32],
    pub asn: &'a mut [u32],
    pub preference: &'a mut [u32],
    pub path: &'a mut [u32],
    pub origin: &'a mut [u32],
    pub mark: &'a mut [u32],
    pub med: &'a mut [u32],
    pub nid: &'a mut [u32],
    pub peer: &'a mut [u32],
}

// The tables of a snapshot, lent to be filled. The columns stand among them and not in a struct of their own: of a reference that lies in a
// struct in a struct, the caller who lent it learns nothing.
#[derive(Drop)]
pub struct LentTables<'a> {
    pub ids: &'a mut [u32],
    pub distances: &'a mut [u32],
    pub address: &'a mut [u32],
    pub bits: &'a mut [u32],
    pub routes: &'a mut [u32],
    pub router: &'a mut [u32],
    pub asn: &'a mut [u32],
    pub preference: &'a mut [u32],
    pub path: &'a mut [u32],
    pub origin: &'a mut [u32],
    pub mark: &'a mut [u32],
    pub med: &'a mut [u32],
    pub nid: &'a mut [u32],
    pub peer: &'a mut [u32],
}

impl<'a> LentTables<'a> {
    // The same tables, to be read.
    pub fn view(&self) -> Tables<'_>
        ensures { tables_of result ≡ lent_tables self.now }
    {
        Tables {
            ids: &*self.ids,
            distances: &*self.distances,
            address: &*self.address,
            bits: &*self.bits,
            routes: &*self.routes,
            rows: Columns {
                router: &*self.router,
                asn: &*self.asn,
                preference: &*self.preference,
                path: &*self.path,
                origin: &*self.origin,
                mark: &*self.mark,
                med: &*self.med,
                nid: &*self.nid,
                peer: &*self.peer,
            },
        }
    }
}

impl<'a> Tables<'a> {
    // Whether a table is shorter than its limit (ROOM).
    pub fn lacks_room(&self) -> bool
        ensures { result ≡ any_of (short (tables_of self.now)) }
    {
        let rows = &self.rows;
        (self.ids.len() < MOST_ROUTERS as usize)
            | (self.distances.len() < ROOM_DISTANCES)
            | (self.address.len() < MOST_PREFIXES as usize)
            | (self.bits.len() < MOST_PREFIXES as usize)
            | (self.routes.len() < MOST_PREFIXES as usize)
            | (rows.router.len() < MOST_ROUTES as usize)
            | (rows.asn.len() < MOST_ROUTES as usize)
            | (rows.preference.len() < MOST_ROUTES as usize)
            | (rows.path.len() < MOST_ROUTES as usize)
            | (rows.origin.len() < MOST_ROUTES as usize)
            | (rows.mark.len() < MOST_ROUTES as usize)
            | (rows.med.len() < MOST_ROUTES as usize)
            | (rows.nid.len() < MOST_ROUTES as usize)
            | (rows.peer.len() < MOST_ROUTES as usize)
    }
}

// Room for the tables of a snapshot, each as long as its limit. Who has to know what becomes of it lends each field by itself: of loans that
// a method hands out together in a struct, as `lend` does, the caller does not learn what they leave.
#[derive(Drop)]
pub struct Arrays {
    pub ids: [u32; MOST_ROUTERS as usize],
    pub distances: [u32; ROOM_DISTANCES],
    pub address: [u32; MOST_PREFIXES as usize],
    pub bits: [u32; MOST_PREFIXES as usize],
    pub routes: [u32; MOST_PREFIXES as usize],
    pub router: [u32; MOST_ROUTES as usize],
    pub asn: [u32; MOST_ROUTES as usize],
    pub preference: [u32; MOST_ROUTES as usize],
    pub path: [u32; MOST_ROUTES as usize],
    pub origin: [u32; MOST_ROUTES as usize],
    pub mark: [u32; MOST_ROUTES as usize],
    pub med: [u32; MOST_ROUTES as usize],
    pub nid: [u32; MOST_ROUTES as usize],
    pub peer: [u32; MOST_ROUTES as usize],
}

impl Arrays {
    // Room in which nothing stands but zeros.
    pub fn new() -> Arrays
        ensures { owned_tables result ≡ zeros }
    {
        Arrays {
            ids: [0; MOST_ROUTERS as usize],
            distances: [0; ROOM_DISTANCES],
            address: [0; MOST_PREFIXES as usize],
            bits: [0; MOST_PREFIXES as usize],
            routes: [0; MOST_PREFIXES as usize],
            router: [0; MOST_ROUTES as usize],
            asn: [0; MOST_ROUTES as usize],
            preference: [0; MOST_ROUTES as usize],
            path: [0; MOST_ROUTES as usize],
            origin: [0; MOST_ROUTES as usize],
            mark: [0; MOST_ROUTES as usize],
            med: [0; MOST_ROUTES as usize],
            nid: [0; MOST_ROUTES as usize],
            peer: [0; MOST_ROUTES as usize],
        }
    }

    // The tables as they stand in this room, none of which lacks room.
    pub fn lend(&mut self) -> LentTables<'_>
        ensures room { any_of (short (lent_tables result)) ≡ false }
        ensures shown { lent_tables result ≡ owned_tables self.old }
    {
        let Arrays {
            ids,
            distances,
            address,
            bits,
            routes,
            router,
            asn,
            preference,
            path,
            origin,
            mark,
            med,
            nid,
            peer,
        } = self;
        LentTables {
            ids,
            distances,
            address,
            bits,
            routes,
            router,
            asn,
            preference,
            path,
            origin,
            mark,
            med,
            nid,
            peer,
        }
    }
}

#[cfg(test)]
mod tests {
    use super::*;
    use std::test::Fail;

    // Whether a number stands in each entry of a table; where it does not, the number is the error, so that a failure names the table.
    fn all_of(table: &[u32], n: u32) -> Result<(), u32> {
        if table.iter().all(|&k| k == n) {
            Ok(())
        } else {
            Err(n)
        }
    }

    // What is written into the tables that are lent stands in the room once the loans are over, each in its own field: no promise can say it.
    #[test]
    fn what_is_lent_fills_the_room() -> Result<(), Fail> {
        let mut arrays = Arrays::new();
        let lent = arrays.lend();
        lent.ids.fill(1);
        lent.distances.fill(2);
        lent.address.fill(3);
        lent.bits.fill(4);
        lent.routes.fill(5);
        lent.router.fill(6);
        lent.asn.fill(7);
        lent.preference.fill(8);
        lent.path.fill(9);
        lent.origin.fill(10);
        lent.mark.fill(11);
        lent.med.fill(12);
        lent.nid.fill(13);
        lent.peer.fill(14);
        all_of(&arrays.ids, 1)?;
        all_of(&arrays.distances, 2)?;
        all_of(&arrays.address, 3)?;
        all_of(&arrays.bits, 4)?;
        all_of(&arrays.routes, 5)?;
        all_of(&arrays.router, 6)?;
        all_of(&arrays.asn, 7)?;
        all_of(&arrays.preference, 8)?;
        all_of(&arrays.path, 9)?;
        all_of(&arrays.origin, 10)?;
        all_of(&arrays.mark, 11)?;
        all_of(&arrays.med, 12)?;
        all_of(&arrays.nid, 13)?;
        all_of(&arrays.peer, 14)?;
        Ok(())
    }
}
