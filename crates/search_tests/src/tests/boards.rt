ghost use Rattle.std.specs.Prelude.{◌≡◌, ◌^◌, ◌≤◌};
ghost use Rattle.incumbent_board.specs.Passes.{SamePass, IsAlone};

use incumbent_board::{Board, BoardPass, Why};
use std::process::Abort;
use std::test::Fail;

/// A call of a board, with what is offered or told, or what is to be answered.
#[derive(Clone, Copy)]
enum Step {
    Draw(bool),
    Offer(i64),
    Best(i64),
    Stop(Why),
    Stopped(Option<Why>),
}

fn take(rt: &impl Abort, board: &Board, pass: &mut BoardPass, step: Step)
    requires { pass.old.board ≡ board.now }
    ensures { SamePass pass.old pass.new }
{
    match step {
        Step::Draw(granted) => match board.draw(pass) {
            Some(credit) => {
                credit.spend();
                assert!(rt; granted);
            }
            None => assert!(rt; !granted),
        },
        Step::Offer(cost) => {
            assert!(rt; cost.unsigned_abs() <= 1_000_000);
            board.offer(pass, cost);
        }
        Step::Best(bound) => assert_eq!(rt; board.best(pass), bound),
        Step::Stop(why) => board.stop(pass, why),
        Step::Stopped(why) => assert_eq!(rt; board.stopped(pass), why),
    }
}

fn follow(rt: &impl Abort, board: &Board, pass: &mut BoardPass, steps: &[Step])
    requires { pass.old.board ≡ board.now }
    ensures { SamePass pass.old pass.new }
{
    for step in steps {
        take(rt, board, pass, *step);
    }
}

/// A budget, the calls, and the credits, the bound and the reason at the end. The top is 10.
#[rattlefmt::skip]
#[test]
fn boards(rt: HostRuntime) -> Result<(), Fail> {
    use Step::{Best, Draw, Offer, Stop, Stopped};
    let rows: [(u64, &[Step], u64, i64, Option<Why>); 5] = [
        (2, &[Draw(true), Draw(true), Draw(false), Offer(7), Best(7)], 2, 7, None),
        (0, &[Draw(false), Draw(false), Best(10), Stopped(None)], 0, 10, None),
        (1, &[Draw(true), Draw(false), Draw(false), Stop(Why::Budget), Stopped(Some(Why::Budget))], 1, 10, Some(Why::Budget)),
        (9, &[Offer(-3), Offer(4), Best(-3), Offer(-3), Best(-3), Draw(true)], 1, -3, None),
        (9, &[Stop(Why::Memory), Stop(Why::Budget), Stopped(Some(Why::Memory))], 0, 10, Some(Why::Memory)),
    ];
    for (budget, steps, credits, best, why) in rows {
        let (board, mut pass) = Board::new(rt.alloc(), budget, 1, 10)?;
        follow(&rt, &board, &mut pass, steps);
        assert_eq!(rt; pass.out(), 0);
        let totals = board.finish(pass);
        assert_eq!(rt; (totals.credits, totals.best, totals.why), (credits, best, why), "{budget}");
    }
    Ok(())
}
