// What a search notes of its steps.
ghost use Rattle.std.specs.Prelude.{◌≡◌, ◌∷◌, [], length, IfOk, IfErr, Some};
ghost use Rattle.run_log.specs.declared.line.LogLine.TheVariants as line;
ghost use Rattle.run_log.specs.Texts.{plain, with_rest};
ghost use Rattle.run_log.specs.Journals.{Notes};
ghost use Rattle.explorer.specs.Trees.{rest, wide, head_lines, solution_lines, gone_lines, stored_lines, opened_lines, tree_lines, hit};
ghost use Rattle.explorer.specs.Recording.{gone_one, gone_at, stored_at};

use crate::frame::{Stop, Whole};
use evictor::{Put, Report};
use run_log::{Journal, LogLine};
use search_core::{Decision, Path};

/// How many decisions a path has. Where a line of a log has no room for that, memory is said to be wanting.
pub(crate) fn depth_of(here: &Path) -> Result<u32, Stop>
    ensures depth { IfOk result (λ depth. depth ≡ length here.now) }
    ensures memory { IfErr result (λ stop. stop ≡ Stop.NoMemory) }
{
    match u32::try_from(here.decisions().len()) {
        Ok(depth) => Ok(depth),
        Err(_) => Err(Stop::NoMemory),
    }
}

/// A line with neither a residual problem nor values.
fn note_plain<J: Journal>(journal: &mut J, line: &LogLine)
    ensures notes { Notes (J.noted journal.old) (J.noted journal.new) (plain line.now ∷ []) }
    ensures places { J.places journal.new ≡ J.places journal.old }
{
    journal.note(line, None, &[]);
}

/// A solution was found.
pub(crate) fn note_solution<J: Journal>(journal: &mut J, cost: &i64, values: &[i64])
    ensures notes { Notes (J.noted journal.old) (J.noted journal.new) (solution_lines (Some (cost.now, values.now))) }
    ensures places { J.places journal.new ≡ J.places journal.old }
{
    journal.note(&LogLine::Solution { cost: *cost }, None, values);
}

/// A node is settled by propagation, or behind its solution.
pub(crate) fn note_leaf<J: Journal>(journal: &mut J, depth: &u32, bound: &i64)
    ensures notes { Notes (J.noted journal.old) (J.noted journal.new) (plain (line.Leaf depth.now bound.now) ∷ []) }
    ensures places { J.places journal.new ≡ J.places journal.old }
{
    note_plain(
        journal,
        &LogLine::Leaf {
            depth: *depth,
            bound: *bound,
        },
    );
}

/// A node whose residual problem has so many words, too many to be looked up.
fn note_wide<J: Journal>(journal: &mut J, depth: &u32, seen: &i64, words: &u64)
    ensures notes { Notes (J.noted journal.old) (J.noted journal.new) (head_lines depth.now (record { seen = seen.now; asked = wide words.now })) }
    ensures places { J.places journal.new ≡ J.places journal.old }
{
    note_node(journal, depth, seen);
    note_plain(journal, &LogLine::Wide { words: *words });
}

/// A node, at which the bound was seen.
fn note_node<J: Journal>(journal: &mut J, depth: &u32, seen: &i64)
    ensures notes { Notes (J.noted journal.old) (J.noted journal.new) (plain (line.Node depth.now seen.now) ∷ []) }
    ensures places { J.places journal.new ≡ J.places journal.old }
{
    note_plain(
        journal,
        &LogLine::Node {
            depth: *depth,
            seen: *seen,
        },
    );
}

/// A residual problem with its offset.
fn note_rest<J: Journal>(journal: &mut J, whole: &Whole)
    ensures notes { Notes (J.noted journal.old) (J.noted journal.new) (with_rest (line.Rest whole.now.offset) whole.now.rest ∷ []) }
    ensures places { J.places journal.new ≡ J.places journal.old }
{
    journal.note(
        &LogLine::Rest {
            offset: whole.offset,
        },
        Some(&whole.rest),
        &[],
    );
}

/// A node with its residual problem.
fn note_whole<J: Journal>(journal: &mut J, depth: &u32, seen: &i64, whole: &Whole)
    ensures notes { Notes (J.noted journal.old) (J.noted journal.new) (head_lines depth.now (record { seen = seen.now; asked = rest whole.now.offset whole.now.rest })) }
    ensures places { J.places journal.new ≡ J.places journal.old }
{
    note_node(journal, depth, seen);
    note_rest(journal, whole);
}

/// An entry was gone, if the report of its place says so.
fn note_if_gone<J: Journal>(journal: &mut J, place: &u32, report: &Report)
    ensures notes { Notes (J.noted journal.old) (J.noted journal.new) (gone_lines (gone_one place.now report.now)) }
    ensures places { J.places journal.new ≡ J.places journal.old }
{
    if let Report::Gone = report {
        note_plain(journal, &LogLine::Gone { place: *place });
    }
}

/// The entries that were gone.
fn note_gone<J: Journal>(journal: &mut J, places: &[u32; 8], reports: &[Report; 8])
    ensures notes { Notes (J.noted journal.old) (J.noted journal.new) (gone_lines (gone_at places.now reports.now)) }
    ensures places { J.places journal.new ≡ J.places journal.old }
{
    'all: for at in 0..8 {
        note_if_gone(journal, &places[at], &reports[at]);
    }
}

/// A node is cut.
fn note_expand<J: Journal>(journal: &mut J, depth: &u32, cut: &Decision)
    ensures notes { Notes (J.noted journal.old) (J.noted journal.new) (plain (line.Expand depth.now cut.now.var cut.now.at cut.now.up) ∷ []) }
    ensures places { J.places journal.new ≡ J.places journal.old }
{
    note_plain(
        journal,
        &LogLine::Expand {
            depth: *depth,
            var: cut.var,
            at: cut.at,
            up: cut.up,
        },
    );
}

/// A node whose residual problem is too wide is expanded.
pub(crate) fn note_wide_opened<J: Journal>(
    journal: &mut J,
    depth: &u32,
    seen: &i64,
    words: &u64,
    cut: &Decision,
)
    ensures notes { Notes (J.noted journal.old) (J.noted journal.new) (opened_lines depth.now (record { head = record { seen = seen.now; asked = wide words.now }; gone = []; cut = cut.now })) }
    ensures places { J.places journal.new ≡ J.places journal.old }
{
    note_wide(journal, depth, seen, words);
    note_expand(journal, depth, cut);
}

/// A node whose residual problem was looked up and missed is expanded.
pub(crate) fn note_opened<J: Journal>(
    journal: &mut J,
    depth: &u32,
    seen: &i64,
    whole: &Whole,
    places: &[u32; 8],
    reports: &[Report; 8],
    cut: &Decision,
)
    ensures notes { Notes (J.noted journal.old) (J.noted journal.new) (opened_lines depth.now (record { head = record { seen = seen.now; asked = rest whole.now.offset whole.now.rest }; gone = gone_at places.now reports.now; cut = cut.now })) }
    ensures places { J.places journal.new ≡ J.places journal.old }
{
    note_whole(journal, depth, seen, whole);
    note_gone(journal, places, reports);
    note_expand(journal, depth, cut);
}

/// A node is settled at the bound that was seen, by the entry of a place.
pub(crate) fn note_hit<J: Journal>(
    journal: &mut J,
    depth: &u32,
    seen: &i64,
    whole: &Whole,
    place: &u32,
)
    ensures notes { Notes (J.noted journal.old) (J.noted journal.new) (tree_lines depth.now (hit seen.now whole.now.offset whole.now.rest seen.now place.now)) }
    ensures places { J.places journal.new ≡ J.places journal.old }
{
    note_whole(journal, depth, seen, whole);
    note_plain(
        journal,
        &LogLine::Hit {
            depth: *depth,
            bound: *seen,
            place: *place,
        },
    );
}

/// Both sides of a node are settled.
pub(crate) fn note_join<J: Journal>(journal: &mut J, depth: &u32, bound: &i64)
    ensures notes { Notes (J.noted journal.old) (J.noted journal.new) (plain (line.Join depth.now bound.now) ∷ []) }
    ensures places { J.places journal.new ≡ J.places journal.old }
{
    note_plain(
        journal,
        &LogLine::Join {
            depth: *depth,
            bound: *bound,
        },
    );
}

/// An entry was published: a line where it was stored.
pub(crate) fn note_stored<J: Journal>(journal: &mut J, put: &Put, bound: &i128)
    ensures notes { Notes (J.noted journal.old) (J.noted journal.new) (stored_lines (stored_at put.now bound.now)) }
    ensures places { J.places journal.new ≡ J.places journal.old }
{
    if let Put::Stored(place) = put {
        note_plain(
            journal,
            &LogLine::Publish {
                place: *place,
                bound: *bound,
            },
        );
    }
}
