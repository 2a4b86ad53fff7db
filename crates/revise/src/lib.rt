// A policy applied to a snapshot, from bytes to bytes.
#![tactic(auto)]

ghost use Rattle.std.specs.Prelude.{◌≡◌};
ghost use Rattle.revise.specs.Revising.{said, revised_answer, revised_out};

use passes::RewriteTables;
use refusal::{Refusal, Refused};
use snapshot::{Arrays, LentTables};

// Which of the two is refused, and how.
#[derive(Clone, Copy, Debug, PartialEq, Eq)]
pub enum RevisionError {
    Snapshot(Refused),
    Policy(Refused),
}

// What a policy makes of a snapshot: the rewritten snapshot's bytes at the start of the output. Refused as ROOM where the output is shorter
// than the snapshot given, then as the snapshot is, then as the policy is; then nothing is altered. Writing is not refused: the rewritten
// snapshot is as long as the one given.
pub fn revise(snapshot: &[u8], policy: &[u8], out: &mut [u8]) -> Result<(), RevisionError>
    ensures { (said result ≡ revised_answer snapshot.now policy.now out.old) × (out.new ≡ revised_out snapshot.now policy.now out.old) }
{
    if out.len() < snapshot.len() {
        return Err(RevisionError::Snapshot(Refused {
            refusal: Refusal::Room,
            place: 0,
        }));
    }
    let mut arrays = Arrays::new();
    let mut lent = LentTables {
        ids: &mut arrays.ids,
        distances: &mut arrays.distances,
        address: &mut arrays.address,
        bits: &mut arrays.bits,
        routes: &mut arrays.routes,
        router: &mut arrays.router,
        asn: &mut arrays.asn,
        preference: &mut arrays.preference,
        path: &mut arrays.path,
        origin: &mut arrays.origin,
        mark: &mut arrays.mark,
        med: &mut arrays.med,
        nid: &mut arrays.nid,
        peer: &mut arrays.peer,
    };
    let counts = reader::read_snapshot(snapshot, &mut lent).map_err(RevisionError::Snapshot)?;
    let mut tables = RewriteTables::from(lent);
    apply::apply_policy(policy, counts, &mut tables).map_err(RevisionError::Policy)?;
    writer::write_snapshot(counts, &tables.view(), out).map_err(RevisionError::Policy)?;
    Ok(())
}
