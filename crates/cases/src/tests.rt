// Worked cases on small graphs, with values worked out by hand.
use cpog::action::Action;
use cpog::graph::Graph;
use cpog::projection::Projection;
use cpog::refusal::Refusal;
use graphs::table::Table;
use questions::check::{Unsound, check};
use questions::formed::well_formed;
use questions::outcome::Flaw;
use searches::cycle::find_cycle;
use std::alloc::{AllocError, Global};
use std::array;
use std::test::Fail;

// The sample `demo`: three events a, b, c over one variable x; a and c are always there, b when x
// is on; c waits for a and for b. Conditions: allow, has of a, b, c, then arc of each pair.
const DEMO: [u8; 13] = [3, 3, 2, 3, 0, 0, 3, 0, 0, 3, 0, 0, 0];

// c does not wait for b.
const WITHOUT_WAIT: [u8; 13] = [3, 3, 2, 3, 0, 0, 3, 0, 0, 0, 0, 0, 0];

// a waits for c where x is off.
const ROUND: [u8; 13] = [3, 3, 2, 3, 0, 0, 3, 0, 0, 3, 1, 0, 0];

// The table of `events` events over `variables` variables, or the empty one where it does not fit.
fn table(heap: Global, events: u8, variables: u8, bytes: &[u8]) -> Result<Table, AllocError> {
    let mut table = Table::new(heap);
    let _ = table.fill(events, variables, Vec::from_slice(heap, bytes)?);
    Ok(table)
}

fn action(left: u8, right: u8, out: u8) -> Action {
    Action {
        left,
        right,
        out,
        ..Action::ZERO
    }
}

// a: 0 and 1 to 2; b: 0 and 1 to 3; c: 2 and 3 to 0.
fn demo_actions() -> [Action; 32] {
    let mut actions = [Action::ZERO; 32];
    actions[0] = action(0, 1, 2);
    actions[1] = action(0, 1, 3);
    actions[2] = action(2, 3, 0);
    actions
}

// The number that a fill of `events` and `variables` with so many zeros is refused with.
fn refused(
    heap: Global,
    events: u8,
    variables: u8,
    bytes: usize,
) -> Result<Option<u8>, AllocError> {
    let zeros = vec![in heap; 0u8; bytes]?;
    Ok(
        Table::new(heap)
            .fill(events, variables, zeros)
            .err()
            .map(Refusal::number),
    )
}

#[test]
fn tables_take_just_their_bytes(rt: HostRuntime) -> Result<(), Fail> {
    let heap = rt.alloc();
    for bytes in [12, 14] {
        assert!(rt; refused(heap, 3, 1, bytes)? == Some(9));
    }
    for (events, variables) in [(33, 0), (3, 9)] {
        assert!(rt; refused(heap, events, variables, 13)? == Some(8));
    }
    for (events, variables, bytes) in [(3, 1, 13), (3, 3, 13), (3, 4, 26), (0, 8, 32)] {
        assert!(rt; refused(heap, events, variables, bytes)?.is_none());
    }
    Ok(())
}

#[test]
fn out_of_range_gives_no(rt: HostRuntime) -> Result<(), Fail> {
    let demo = table(rt.alloc(), 3, 1, &DEMO)?;
    assert!(rt; demo.allow(1) && !demo.allow(2) && !demo.allow(65535));
    assert!(rt; demo.has(1, 1) && !demo.has(1, 0) && !demo.has(3, 1) && !demo.has(255, 1));
    assert!(rt;
        demo.arc(0, 2, 0) && !demo.arc(2, 0, 0) && !demo.arc(0, 3, 0) && !demo.arc(0, 2, 2)
    );
    Ok(())
}

#[test]
fn demo_at_0_has_a_before_c_only(rt: HostRuntime) -> Result<(), Fail> {
    let demo = table(rt.alloc(), 3, 1, &DEMO)?;
    let mut place = Projection::new();
    assert!(rt; place.project(&demo, 0).is_ok() && place.count() == 2);
    assert!(rt;
        place.precedes(0, 2)
            && !place.precedes(2, 0)
            && !place.precedes(1, 2)
            && !place.precedes(0, 1)
    );
    assert!(rt;
        place.project(&demo, 2).is_err() && place.count() == 2,
        "refused, so as it was"
    );
    assert!(rt; place.project(&demo, 1).is_ok() && place.count() == 3 && place.precedes(1, 2));
    Ok(())
}

#[test]
fn an_arc_to_itself_is_a_cycle(rt: HostRuntime) -> Result<(), Fail> {
    let alone = table(rt.alloc(), 1, 0, &[1, 1, 1])?;
    let mut place = Projection::new();
    assert!(rt; matches!(place.project(&alone, 0), Err(Refusal::Cycle(0))));
    assert!(rt; find_cycle(&alone, 0).is_some_and(|cycle| cycle.as_slice().len() == 1));
    Ok(())
}

// What a check says of a graph: the verdict, and how many events it shows.
fn judged(table: &Table, actions: &[Action]) -> Option<(Result<(), Unsound>, usize)> {
    let checked = check(table, actions, &mut [0u8; 32]).ok()?;
    Some((checked.verdict, checked.shown))
}

const CYCLE_AT_0: Unsound = Unsound {
    opcode: 0,
    flaw: Flaw::Cycle,
};

#[test]
fn verdicts_on_the_sample(rt: HostRuntime) -> Result<(), Fail> {
    let heap = rt.alloc();
    let actions = demo_actions();
    let demo = table(heap, 3, 1, &DEMO)?;
    let clash = table(heap, 3, 1, &WITHOUT_WAIT)?;
    let round = table(heap, 3, 1, &ROUND)?;
    let clash_at_1 = Unsound {
        opcode: 1,
        flaw: Flaw::Clash(1, 2),
    };
    assert!(rt; judged(&demo, &actions) == Some((Ok(()), 0)));
    assert!(rt; judged(&clash, &actions) == Some((Err(clash_at_1), 2)));
    assert!(rt; judged(&round, &actions) == Some((Err(CYCLE_AT_0), 2)));
    assert!(rt; well_formed(&clash) == Ok(()));
    assert!(rt; well_formed(&round) == Err(0));
    Ok(())
}

// 32 events over no variable, which are all there, with these arcs.
fn wired<F: Fn(usize, usize) -> bool>(heap: Global, arc: F) -> Result<Table, AllocError>
    requires { F.IsAlwaysCallable arc }
{
    let conditions: [u8; 1057] = array::from_fn(|k| u8::from(
        k < 33 || arc((k - 33) / 32, (k - 33) % 32),
    ));
    table(heap, 32, 0, &conditions)
}

#[test]
fn lines_and_rings_of_32_events(rt: HostRuntime) -> Result<(), Fail> {
    let heap = rt.alloc();
    let same = [action(1, 1, 0); 32];
    let line = wired(heap, |from, to| from.wrapping_add(1) == to)?;
    assert!(rt; judged(&line, &same) == Some((Ok(()), 0)));
    let ring = wired(heap, |from, to| from.wrapping_add(1) % 32 == to)?;
    assert!(rt; judged(&ring, &same) == Some((Err(CYCLE_AT_0), 32)));
    let broken = wired(
        heap,
        |from, to| from != 30 && from.wrapping_add(1) % 32 == to,
    )?;
    assert!(rt;
        judged(&broken, &same) == Some((Ok(()), 0)),
        "31 before 0, and so on"
    );
    Ok(())
}

#[test]
fn a_check_that_is_refused_or_has_nothing_to_do(rt: HostRuntime) -> Result<(), Fail> {
    let heap = rt.alloc();
    let demo = table(heap, 3, 1, &DEMO)?;
    let mut actions = demo_actions();
    assert!(rt; judged(&demo, &actions[0..31]).is_none());
    actions[3] = action(32, 32, 32);
    assert!(rt; judged(&demo, &actions).is_some(), "entry 3 is no event's");
    actions[1] = action(0, 32, 3);
    assert!(rt; judged(&demo, &actions).is_none());
    assert!(rt; judged(&Table::new(heap), &actions) == Some((Ok(()), 0)));
    Ok(())
}
