//! A World whose tables show other rows than its own.
//!
//! Nobody makes one by the calls of a World: the rows are read off the tables of one, and put over those of another. What does
//! so is over any store, and called once at the store in memory: each call at one store is proved anew.

ghost use Rattle.std.specs.Prelude.{IfOk};
ghost use Rattle.moo_world.specs.Rows.{IsGood};

use moo_cells::read_cells;
use moo_memory::Flat;
use moo_store::{NoNotes, World, apply_text, create_in};
use moo_tables::{Version, are_listed, read_tables};
use sqlite::{Alter, Connection};
use std::alloc::Global;
use std::test::Fail;

/// The call of a world that runs no batch.
const NO_BATCH: &str = "";

/// Runs one batch of this call, or nothing if the call is empty.
fn run_call<S: Alter + Drop>(alloc: Global, world: &mut World<S>, call: &str) -> Result<(), Fail> {
    if call.is_empty() {
        return Ok(());
    }
    let text = format!(in alloc; "batch as #3\n{call}\nend\n")?;
    let mut written = Vec::new(alloc);
    match apply_text(text.as_bytes(), &mut written, world, &mut NoNotes) {
        Ok(_) => Ok(()),
        Err(_) => Err(Fail::from("the batch can't be run")),
    }
}

/// The tables of a new world that has run one batch of this call, or none.
fn tables_after<S: Alter + Drop>(
    alloc: Global,
    conn: Connection<S>,
    call: &str,
) -> Result<Connection<S>, Fail> {
    if !conn.is_autocommit() {
        return Err(Fail::from("the tables are in a transaction"));
    }
    match create_in(alloc, conn) {
        Ok(mut world) => {
            run_call(alloc, &mut world, call)?;
            Ok(world.into_connection())
        }
        Err((fault, _conn)) => Err(Fail::from(fault)),
    }
}

/// The rows that the tables of a connection show.
fn rows_of<S: Alter + Drop>(alloc: Global, mut conn: Connection<S>) -> Result<Flat, Fail>
    ensures { IfOk result (λ rows. IsGood rows.maps) }
{
    let lists = read_tables(alloc, &mut conn, Version::PRESENT)?;
    if !are_listed(&lists) {
        return Err(Fail::from("the rows of a table aren't in the order of their keys"));
    }
    Ok(read_cells(alloc, lists)?)
}

/// A World of the rows of some tables, over others.
fn mix_world<S: Alter + Drop>(
    alloc: Global,
    own: Connection<S>,
    tables: Connection<S>,
) -> Result<World<S>, Fail> {
    let rows = rows_of(alloc, own)?;
    if !tables.is_autocommit() {
        return Err(Fail::from("the tables are in a transaction"));
    }
    Ok(World::over(alloc, tables, rows))
}

/// What a check of a World says: how many objects it has, or its fault.
fn line<S: Alter + Drop>(alloc: Global, world: &mut World<S>) -> Result<String, Fail> {
    Ok(match world.check() {
        Ok(count) => format!(in alloc; "{count} objects")?,
        Err(fault) => format!(in alloc; "{fault}")?,
    })
}

/// What two checks say, one after the other, of a World of the rows after one call, over the tables after another.
fn check_twice<S: Alter + Drop>(
    alloc: Global,
    (first, second): (Connection<S>, Connection<S>),
    (own, tables): (&str, &str),
) -> Result<(String, String), Fail> {
    let own = tables_after(alloc, first, own)?;
    let tables = tables_after(alloc, second, tables)?;
    let mut world = mix_world(alloc, own, tables)?;
    let once = line(alloc, &mut world)?;
    Ok((once, line(alloc, &mut world)?))
}

/// `check_twice` over two stores in memory.
fn checked_in_memory(alloc: Global, calls: (&str, &str)) -> Result<(String, String), Fail> {
    let first = Connection::open_in_memory(alloc)?;
    check_twice(alloc, (first, Connection::open_in_memory(alloc)?), calls)
}

/// The calls after a World's own rows and after its tables, and what a check of it says, and the next one.
static CHECKED: [(&str, &str, &str, &str); 7] = [
    ("create(#1)", "create(#1)", "5 objects", "5 objects"),
    (NO_BATCH, "create(#1)", "damaged mismatch head", CLOSED),
    (
        "set(#2, \"name\", \"Hall\")",
        "set(#1, \"name\", \"Root\")",
        "damaged mismatch #1",
        CLOSED,
    ),
    (
        "add_property(#1, \"a\", 1, {#3, \"r\"})",
        "add_property(#1, \"b\", 1, {#3, \"r\"})",
        "damaged mismatch p1",
        CLOSED,
    ),
    (
        "add_property(#2, \"a\", 1, {#3, \"r\"})",
        "add_property(#2, \"a\", 2, {#3, \"r\"})",
        "damaged mismatch #2 p1",
        CLOSED,
    ),
    (
        "add_verb(#2, {#3, \"rd\", \"look\"}, {\"this\", \"none\", \"none\"})",
        "add_verb(#2, {#3, \"rd\", \"take\"}, {\"this\", \"none\", \"none\"})",
        "damaged mismatch #2 v1",
        CLOSED,
    ),
    (
        "petition({{\"players\"}})",
        "petition({{\"max_object\"}})",
        "damaged mismatch r1",
        CLOSED,
    ),
];

/// What a check says of a World that has failed.
const CLOSED: &str = "the world has failed";

#[test]
fn a_check_tells_the_first_row_that_differs(rt: HostRuntime) -> Result<(), Fail> {
    for (own, tables, first, second) in &CHECKED {
        let (once, again) = checked_in_memory(rt.alloc(), (own, tables))?;
        assert!(rt; once.as_str() == *first, "{first}");
        assert!(rt; again.as_str() == *second, "{first}");
    }
    Ok(())
}
