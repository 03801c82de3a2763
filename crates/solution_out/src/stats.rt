ghost use Rattle.cs_base.specs.Causes.{HasCause, AppendsPart};
ghost use Rattle.solution_out.specs.Stats.{stat_text, stats};
ghost use Rattle.solution_out.specs.Writes.{Wrote};

use crate::text::{put, put_between, put_count};
use cs_base::{Failed, Sink};
use incumbent_board::Outcome;

/// Appends the line of one count.
fn put_stat<O: Sink>(out: &mut O, name: &[u8], count: u64) -> Result<(), Failed>
    ensures text { Wrote (O.written out.old) (O.written out.new) (stat_text name.now count) result }
    ensures cause { HasCause (O.faults out.old) (O.faults out.new) result }
{
    put_between(out, b"%%%mzn-stat: ", name, b"=")?;
    put_count(out, count)?;
    put(out, b"\n")
}

/// Appends the lines of all counts.
#[tactic(auto, unfolding(crate::specs::Stats::stats), using(crate::proofs::Writing::wrote_then, crate::proofs::Writing::wrote_part))]
pub(crate) fn put_stats<O: Sink>(out: &mut O, outcome: &Outcome) -> Result<(), Failed>
    ensures text { Wrote (O.written out.old) (O.written out.new) (stats outcome.now) result }
    ensures cause { HasCause (O.faults out.old) (O.faults out.new) result }
{
    put_stat(out, b"nodes", outcome.nodes)?;
    put_stat(out, b"cacheHits", outcome.hits)?;
    put_stat(out, b"cacheStores", outcome.stores)?;
    put_stat(out, b"cacheGone", outcome.gone)?;
    put(out, b"%%%mzn-stat-end\n")
}

/// Appends what a search took to the sink: a line `%%%mzn-stat: NAME=VALUE` for each of the outcome's four counts, in
/// decimal and in the order of its fields, and then the line `%%%mzn-stat-end`. `Failed` comes only where a write of the
/// sink failed, and then a part at the front of that text was appended. Takes no memory.
#[tactic(auto, unfolding(crate::specs::Writes::Wrote))]
pub fn write_stats<O: Sink>(out: &mut O, outcome: &Outcome) -> Result<(), Failed>
    ensures text { AppendsPart (O.written out.old) (O.written out.new) (stats outcome.now) result }
    ensures cause { HasCause (O.faults out.old) (O.faults out.new) result }
{
    put_stats(out, outcome)
}
