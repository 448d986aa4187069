//! Steps that are taken, each judged before.

use crate::steps::lines::BY;
use jsteps::{Index, Op, Step, advance, plan};
use std::alloc::{AllocError, Global};
use std::test::Fail;
use test_operations::{is_ready, op_of};

/// Takes a step, if it can be taken.
pub fn take_once(index: &mut Index, step: &Step<'_>) -> Option<Result<(), AllocError>> {
    if is_ready(index, step) {
        Some(advance(index, step))
    } else {
        None
    }
}

fn take_all(index: &mut Index, steps: &[Step<'_>]) -> Result<usize, AllocError> {
    let mut count = 0usize;
    for step in steps {
        if let Some(taken) = take_once(index, step) {
            taken?;
            count = count.wrapping_add(1);
        }
    }
    Ok(count)
}

fn take_op(alloc: Global, index: &mut Index, op: &Op<'_>) -> Result<usize, Fail> {
    let steps = plan(alloc, index, op)?;
    Ok(take_all(index, &steps)?)
}

/// Takes the steps of the operation of a line, and tells how many were taken.
pub fn take(alloc: Global, index: &mut Index, line: &str) -> Result<usize, Fail> {
    let op = op_of(line, BY).ok_or("no operation")?;
    take_op(alloc, index, &op)
}
