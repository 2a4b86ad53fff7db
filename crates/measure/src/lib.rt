// The library's calls as the benchmarks make them: with numbers in place of answers, and with slices in place of structs of them, so that
// a C caller can take them.
#![tactic(auto)]

ghost use Rattle.std.specs.Prelude.{◌≡◌, []};
ghost use Rattle.refusal.specs.Numbers.{said_by, gives};
ghost use Rattle.snapshot.specs.Tables.{tables, columns};
ghost use Rattle.writer.specs.Writing.{said as write_said};
ghost use Rattle.outlook.specs.Outlook.{said as outlook_said};
ghost use Rattle.measure.specs.Measure.{write_number, outlook_number, Reads, Writes, Forecasts, Policies};

use decide::Differing;
use passes::RewriteTables;
use refusal::Refused;
use snapshot::{Columns, Counts, LentTables, Tables};

// The number of a refusal, or 0.
fn refusal_number<T>(answer: &Result<T, Refused>) -> u32
    ensures { result ≡ (said_by (λ _. gives []) answer.now).number }
{
    match answer {
        Ok(_) => 0,
        Err(refused) => refusal::number(refused.refusal),
    }
}

// What writing answers, as a number.
fn write_number(written: Result<usize, Refused>) -> usize
    ensures { result ≡ write_number (write_said written) }
{
    match written {
        Ok(n) => n,
        Err(refused) => 1000000 + refusal::number(refused.refusal) as usize,
    }
}

// What a forecast answers, as a number.
fn outlook_number(outlook: Result<Differing, Refused>) -> u32
    ensures { result ≡ outlook_number (outlook_said outlook) }
{
    match outlook {
        Ok(differing) => differing.number,
        Err(refused) => 100 + refusal::number(refused.refusal),
    }
}

// Reads a snapshot: 0, or the number of the refusal.
#[unsafe(no_mangle)]
pub extern "C" fn measure_read(
    input: &[u8],
    ids: &mut [u32],
    distances: &mut [u32],
    address: &mut [u32],
    bits: &mut [u32],
    routes: &mut [u32],
    router: &mut [u32],
    asn: &mut [u32],
    preference: &mut [u32],
    path: &mut [u32],
    origin: &mut [u32],
    mark: &mut [u32],
    med: &mut [u32],
    nid: &mut [u32],
    peer: &mut [u32],
) -> u32
    ensures { Reads input.now (tables ids.old distances.old address.old bits.old routes.old (columns router.old asn.old preference.old path.old origin.old mark.old med.old nid.old peer.old)) (tables ids.new distances.new address.new bits.new routes.new (columns router.new asn.new preference.new path.new origin.new mark.new med.new nid.new peer.new)) result }
{
    let mut tables = LentTables {
        ids,
        distances,
        address,
        bits,
        routes,
        router,
        asn,
        preference,
        path,
        origin,
        mark,
        med,
        nid,
        peer,
    };
    refusal_number(&reader::read_snapshot(input, &mut tables))
}

// Writes a snapshot: how many bytes, or 1,000,000 plus the number of the refusal.
#[unsafe(no_mangle)]
pub extern "C" fn measure_write(
    routers: u32,
    prefixes: u32,
    of_routes: u32,
    ids: &[u32],
    distances: &[u32],
    address: &[u32],
    bits: &[u32],
    routes: &[u32],
    router: &[u32],
    asn: &[u32],
    preference: &[u32],
    path: &[u32],
    origin: &[u32],
    mark: &[u32],
    med: &[u32],
    nid: &[u32],
    peer: &[u32],
    out: &mut [u8],
) -> usize
    ensures { Writes routers prefixes of_routes (tables ids.now distances.now address.now bits.now routes.now (columns router.now asn.now preference.now path.now origin.now mark.now med.now nid.now peer.now)) out.old out.new result }
{
    let counts = Counts {
        routers,
        prefixes,
        routes: of_routes,
    };
    let rows = Columns {
        router,
        asn,
        preference,
        path,
        origin,
        mark,
        med,
        nid,
        peer,
    };
    let tables = Tables {
        ids,
        distances,
        address,
        bits,
        routes,
        rows,
    };
    write_number(writer::write_snapshot(counts, &tables, out))
}

// Forecasts a prefix: how many routers differ, or 100 plus the number of the refusal.
#[unsafe(no_mangle)]
pub extern "C" fn measure_forecast(
    routers: u32,
    prefixes: u32,
    of_routes: u32,
    ids: &[u32],
    distances: &[u32],
    address: &[u32],
    bits: &[u32],
    routes: &[u32],
    router: &[u32],
    asn: &[u32],
    preference: &[u32],
    path: &[u32],
    origin: &[u32],
    mark: &[u32],
    med: &[u32],
    nid: &[u32],
    peer: &[u32],
    prefix: u32,
    early: &mut [u16],
    late: &mut [u16],
) -> u32
    ensures { Forecasts routers prefixes of_routes (tables ids.now distances.now address.now bits.now routes.now (columns router.now asn.now preference.now path.now origin.now mark.now med.now nid.now peer.now)) prefix early.old late.old early.new late.new result }
{
    let counts = Counts {
        routers,
        prefixes,
        routes: of_routes,
    };
    let rows = Columns {
        router,
        asn,
        preference,
        path,
        origin,
        mark,
        med,
        nid,
        peer,
    };
    let tables = Tables {
        ids,
        distances,
        address,
        bits,
        routes,
        rows,
    };
    outlook_number(outlook::forecast(counts, &tables, prefix, early, late))
}

// Rewrites the routes in tables by a policy: 0, or the number of the refusal.
#[unsafe(no_mangle)]
pub extern "C" fn measure_policy(
    policy: &[u8],
    routers: u32,
    prefixes: u32,
    of_routes: u32,
    ids: &[u32],
    distances: &[u32],
    address: &[u32],
    bits: &[u32],
    routes: &[u32],
    router: &[u32],
    asn: &[u32],
    preference: &mut [u32],
    path: &[u32],
    origin: &[u32],
    mark: &mut [u32],
    med: &mut [u32],
    nid: &[u32],
    peer: &[u32],
) -> u32
    ensures { Policies routers prefixes of_routes (tables ids.now distances.now address.now bits.now routes.now (columns router.now asn.now preference.old path.now origin.now mark.old med.old nid.now peer.now)) policy.now (tables ids.now distances.now address.now bits.now routes.now (columns router.now asn.now preference.new path.now origin.now mark.new med.new nid.now peer.now)) result }
{
    let counts = Counts {
        routers,
        prefixes,
        routes: of_routes,
    };
    let mut tables = RewriteTables {
        ids,
        distances,
        address,
        bits,
        routes,
        router,
        asn,
        preference,
        path,
        origin,
        mark,
        med,
        nid,
        peer,
    };
    refusal_number(&apply::apply_policy(policy, counts, &mut tables))
}
