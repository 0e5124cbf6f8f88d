//! Calls on values that no line and no source gives.
use cf_eval::{LineFault, Outcome, Value, read_line, run_code};
use cf_linear::Row;
use cf_set::Set;
use cf_tree::{Base, Code};
use std::test::*;

#[test]
fn a_line_feed_is_no_part_of_a_line(rt: HostRuntime) {
    let found = read_line(rt.alloc(), b"5\n", &[Base::Int]);
    assert!(rt; matches!(&found, Err(LineFault::BadInput)));
}

#[test]
fn the_least_number_passes_the_limit(rt: HostRuntime) -> Result<(), Fail> {
    let values = vec![in rt.alloc(); Value::Int(i128::MIN)]?;
    let outcome = run_code(rt.alloc(), &Code::Var(0), &values)?;
    assert!(rt; matches!(&outcome, Outcome::Overflow));
    Ok(())
}

#[test]
fn a_row_has_a_value(rt: HostRuntime) {
    let row = Row::unit(rt.alloc(), 1, 7).expect(&rt, "memory");
    assert_eq!(rt; row.value_at(&[1, 5]), Some(35));
}

#[test]
fn numbers_at_the_limit_are_elements(rt: HostRuntime) -> Result<(), Fail> {
    let set = Set::from_list(rt.alloc(), &[i128::MAX, -i128::MAX])?;
    assert!(rt; set.has(i128::MAX) && set.has(-i128::MAX) && !set.has(0));
    assert!(rt;
        Set::fresh(rt.alloc(), &set, i128::MAX).is_err(),
        "no vector holds so many"
    );
    Ok(())
}
