//! All tables, in new environments for the tables that need one.

use crate::blocks::expect;
use crate::bounds::expect_long;
use crate::caches::all_answer;
use crate::doubling::expect_doubling;
use crate::expressions::expect_expressions;
use crate::includes::expect_includes;
use crate::limited::expect_ends;
use crate::party::{Rows, add_objects};
use crate::settings::{expect_empty, expect_tables};
use crate::states::expect_states;
use std::test::Fail;

#[test]
fn parts_hold(rt: HostRuntime) -> Result<(), Fail> {
    let alloc = rt.alloc();
    let mut environment = Rows::new(alloc)?;
    expect_expressions(alloc, &environment)?;
    expect_ends(alloc, &environment)?;
    expect_states(alloc, &mut environment)
}

#[test]
fn filters_answer(rt: HostRuntime) -> Result<(), Fail> {
    let alloc = rt.alloc();
    let mut environment = Rows::new(alloc)?;
    expect(all_answer(alloc, &mut environment)?, "many filters")
}

#[test]
fn doubling_ends(rt: HostRuntime) -> Result<(), Fail> {
    let alloc = rt.alloc();
    let mut environment = Rows::new(alloc)?;
    add_objects(&mut environment)?;
    expect_doubling(alloc, &mut environment)
}

#[test]
fn rows_hold(rt: HostRuntime) -> Result<(), Fail> {
    let alloc = rt.alloc();
    let mut environment = Rows::new(alloc)?;
    expect_includes(alloc, &mut environment)?;
    environment = Rows::new(alloc)?;
    expect_tables(alloc, &mut environment)?;
    environment = Rows::empty(alloc);
    expect_empty(alloc, &mut environment)
}

#[test]
fn long_sources_render(rt: HostRuntime) -> Result<(), Fail> {
    let environment = Rows::new(rt.alloc())?;
    expect_long(rt.alloc(), &environment)
}
