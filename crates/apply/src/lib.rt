// A policy applied to lent tables: the preference, mark and MED of their routes are rewritten in place, or nothing is and it is refused by
// number and place.
#![tactic(auto)]

ghost use Rattle.passes.specs.Passes.{rewrite_tables, KeepsRewrite};
ghost use Rattle.apply.specs.Applying.{said, Applies};

use passes::RewriteTables;
use refusal::Refused;
use snapshot::Counts;

// Rewrites the preference, mark and MED of the routes in lent tables by a policy. Refused as ROOM where a table is shorter than its limit,
// TABLE where counts and tables are not those of any snapshot, then as the policy file is; then nothing is altered: the whole file is
// judged before the first entry is.
pub fn apply_policy(
    policy: &[u8],
    counts: Counts,
    tables: &mut RewriteTables<'_>,
) -> Result<(), Refused>
    ensures rewritten { Applies counts (rewrite_tables tables.old) policy.now (said result) (rewrite_tables tables.new) }
    ensures kept { KeepsRewrite tables.old tables.new }
{
    if let Err(refusal) = tables::examine(counts, &tables.view()) {
        return Err(Refused { refusal, place: 0 });
    }
    sessions::judge(policy)?;
    passes::apply(
        policy,
        counts.prefixes as usize,
        counts.routes as usize,
        tables,
    );
    Ok(())
}
