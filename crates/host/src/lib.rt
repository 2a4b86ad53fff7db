// The calls for C programs: the forecast of one prefix, from snapshot bytes, a prefix number and an answer area; and what a policy makes
// of a snapshot, from bytes to bytes.
#![tactic(auto)]

ghost use Rattle.std.specs.Prelude.{◌≡◌, ◌++◌, ◌*◌, ◌≤◌, length};
ghost use Rattle.std.proofs.lemmas.List.Edits.{sets};
ghost use Rattle.model.specs.Rows.{span};
ghost use Rattle.wire.specs.Numbers.{bytes_of};
ghost use Rattle.text.specs.Text.{each, HasRoom, PutsAtMost};
ghost use Rattle.load.specs.Load.{Asked};
ghost use Rattle.host.specs.Host.{area_bytes, refusal_code, code, router_bytes, Answers};
ghost use Rattle.revise.specs.Revising.{said, revised_answer, revised_out};

use refusal::{Refusal, Refused};
use revise::RevisionError;
use text::Sink;

// The least length of an answer area: four bytes for each of the most routers.
const AREA_BYTES: usize = 256;

// What a refusal returns.
fn refused(r: Refusal) -> u32
    ensures { result ≡ refusal_code r }
{
    100 + refusal::number(r)
}

// Puts the early and the late row of a router.
fn put_router(sink: &mut Sink<'_>, early: u16, late: u16)
    requires { HasRoom sink.old 4 }
    ensures { PutsAtMost 4 sink.old sink.new (bytes_of 2 early ++ bytes_of 2 late) }
{
    sink.put_text(&early.to_be_bytes());
    sink.put_text(&late.to_be_bytes());
}

// Puts the rows of each router.
fn put_rows(early: &[u16], late: &[u16], area: &mut [u8])
    requires { (length late.now ≡ length early.now) × (4 * length early.now ≤ length area.old) }
    ensures { area.new ≡ sets area.old 0 (each (router_bytes early.now late.now) (span 0 (length early.now))) }
{
    let mut sink = Sink::new(area);
    for (first, second) in early.iter().zip(late) {
        put_router(&mut sink, *first, *second);
    }
}

// The answer to a prefix that the snapshot has, where there are n routers. It stands apart from the reading, so that a snapshot that is
// refused takes nothing of the stack for tables.
#[inline(never)]
fn answer(snapshot: &[u8], n: usize, prefix: usize, area: &mut [u8]) -> u32
    requires { Asked snapshot.now n prefix × (area_bytes ≤ length area.old) }
    ensures { Answers snapshot.now prefix area.old result area.new }
{
    let mut early_room = [rows::NONE; rows::MOST_ROUTERS];
    let mut late_room = [rows::NONE; rows::MOST_ROUTERS];
    let early = &mut early_room[..n];
    let late = &mut late_room[..n];
    let d = load::forecast(snapshot, prefix, early, late);
    put_rows(early, late, area);
    d.number
}

// How many routers differ, with the rows of each in the area. Checks: ROOM, the reading order, NO PREFIX.
fn forecast(snapshot: &[u8], prefix: u32, area: &mut [u8]) -> Result<u32, Refused>
    ensures { Answers snapshot.now prefix area.old (code result) area.new }
{
    if area.len() < AREA_BYTES {
        return Err(Refused {
            refusal: Refusal::Room,
            place: 0,
        });
    }
    let counts = scan::judge(snapshot)?;
    if counts.prefixes <= prefix {
        return Err(Refused {
            refusal: Refusal::NoPrefix,
            place: 0,
        });
    }
    let routers = counts.routers as usize;
    Ok(answer(snapshot, routers, prefix as usize, area))
}

// The host call.
#[unsafe(no_mangle)]
pub extern "C" fn barrierose_forecast(snapshot: &[u8], prefix: u32, area: &mut [u8]) -> u32
    ensures { Answers snapshot.now prefix area.old result area.new }
{
    match forecast(snapshot, prefix, area) {
        Ok(differing) => differing,
        Err(e) => refused(e.refusal),
    }
}

// What an answer to a policy returns.
fn revised(answer: Result<(), RevisionError>) -> u32
    ensures { result ≡ (said answer).number }
{
    match answer {
        Ok(()) => 0,
        Err(RevisionError::Snapshot(e)) => 100 + refusal::number(e.refusal),
        Err(RevisionError::Policy(e)) => 200 + refusal::number(e.refusal),
    }
}

// The policy's call: the rewritten snapshot stands in the first bytes of `out`. Checks: ROOM, the snapshot, the policy.
#[unsafe(no_mangle)]
pub extern "C" fn barrierose_policy(snapshot: &[u8], policy: &[u8], out: &mut [u8]) -> u32
    ensures { (result ≡ (revised_answer snapshot.now policy.now out.old).number) × (out.new ≡ revised_out snapshot.now policy.now out.old) }
{
    revised(revise::revise(snapshot, policy, out))
}
